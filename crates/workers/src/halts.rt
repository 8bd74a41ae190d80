// By what an event ends a run.
ghost use Rattle.std.specs.Prelude.{◌≡◌, None, length, slice_index_or, slice_set};
ghost use Rattle.durable_run.specs.Passed.{Stuck};
ghost use Rattle.durable_run.specs.Passed.{fault_of_halt};

use ap_base::ThreadNo;
use durable_run::{Halt, SharedHeap};
use line_image::Image;
use run_types::{On, RunFault, Waits};

// Notes what a thread waits for, if it does.
fn note(waits: &mut Waits, t: ThreadNo, on: Option<On>)
    requires { slice_index_or waits.old t None ≡ None }
    ensures { waits.new ≡ slice_set waits.old t on }
{
    if let Some(on) = on {
        waits.set(t, on);
    }
}

// What the last event of each thread waited for.
fn waits_of<I: Image>(heap: &SharedHeap<I>) -> Waits
    requires { length heap.now.notes.waits ≡ 64 }
    ensures { result ≡ heap.now.notes.waits }
{
    let mut waits = Waits::none();
    for n in 0..64 {
        let t = ThreadNo::new(n).unwrap();
        note(&mut waits, t, heap.waiting(t));
    }
    waits
}

/// The fault by which a run is over that an event ends so.
pub(crate) fn fault_of<I: Image>(heap: &SharedHeap<I>, halt: Halt) -> RunFault
    requires stuck { halt ≡ Stuck → length heap.now.notes.waits ≡ 64 }
    ensures { result ≡ fault_of_halt heap.now halt }
{
    match halt {
        Halt::Met(fault) => fault.of_run(),
        Halt::Stuck => RunFault::Stuck(waits_of(heap)),
    }
}
