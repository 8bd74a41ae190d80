// Who holds a monitor.
ghost use Rattle.std.specs.Prelude.{◌≡◌, ◌<◌, ◌-◌, ◌^◌, ◌↔◌, All, IsTrue};
ghost use Rattle.monitors.specs.declared.monitor.Monitor.{Monitor as MonitorOf};
ghost use Rattle.monitors.specs.Held.{IsHeldBy, monitor_of};

use ap_base::ThreadNo;
use monitors::{Enter, Monitors};
use run_types::Key;

/// A thread with another number.
fn another(t: ThreadNo) -> ThreadNo
    ensures { result ≡ t → ⊥ }
{
    if t.number() == 0 {
        ThreadNo::new(1).unwrap_or(t)
    } else {
        ThreadNo::main()
    }
}

/// Whether a thread holds the monitor of a key. Another thread tries to enter it, and leaves it if
/// it could.
pub(crate) fn holds(monitors: &mut Monitors, t: ThreadNo, key: Key) -> bool
    requires entered { All (λ (m : MonitorOf). 0 < m.count) monitors.old }
    requires counts { All (λ (m : MonitorOf). m.count < 2 ^ 64 - 1) monitors.old }
    ensures holds { IsTrue result ↔ IsHeldBy t (monitor_of monitors.old key) }
    ensures same { monitors.new ≡ monitors.old }
{
    let other = another(t);
    match monitors.enter(other, key) {
        Enter::Taken => {
            let _left = monitors.exit(other, key);
            false
        }
        Enter::Held(owner) => owner.number() == t.number(),
        Enter::Full => false,
    }
}
