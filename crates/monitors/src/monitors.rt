// The monitors that threads hold.
ghost use Rattle.std.specs.Prelude.{◌≡◌, ◌≢◌, ◌≤◌, ◌↔◌, [], length, IfOk, IsOk, IsErr, None};
ghost use Rattle.monitors.specs.Held.{enter_answer, entered, exited, monitor_of, owner_of, rekeyed, IsHeldBy};

use crate::index::Index;
use crate::{Enter, Monitor, NotOwner};
use ap_base::ThreadNo;
use run_types::Key;
use std::alloc::{AllocError, Global};
use std::marker::Model;

/// How many monitors may be held at once.
pub const MOST_MONITORS: usize = 4096;

/// The monitors that threads hold, in the order in which they were taken. One is found through an index
/// of keys. To give one up takes time for each that was taken after it.
#[derive(Drop)]
pub struct Monitors {
    held: Vec<Monitor>,
    index: Index,
}

impl Model for Monitors {
    ghost use Rattle.std.specs.Prelude.{List, vec_capacity};
    ghost use Rattle.monitors.specs.declared.monitor.Monitor.{Monitor};
    ghost use Rattle.monitors.specs.Indexed.{AreHeld};

    ghost Value = { List Monitor };

    ghost view = { λ m. m.held.items };

    ghost invariant = { λ m.
        AreHeld m.held.items (vec_capacity m.held) m.index.latest.items m.index.earlier.items };
}

impl Monitors {
    /// None is held. Takes the memory for all that may be.
    pub fn reserve(alloc: Global) -> Result<Monitors, AllocError>
        ensures none { IfOk result (λ monitors. monitors ≡ []) }
    {
        let mut held = Vec::new(alloc);
        held.reserve(MOST_MONITORS)?;
        Ok(Monitors {
            held,
            index: Index::new(alloc)?,
        })
    }

    /// Thread `t` enters the monitor of a key once more.
    pub fn enter(&mut self, t: ThreadNo, key: Key) -> Enter
        ensures answer { result ≡ enter_answer t self.old key }
        ensures taken { result ≡ Enter.Taken → self.new ≡ entered self.old key t }
        ensures same { result ≢ Enter.Taken → self.new ≡ self.old }
        ensures few { length self.new ≤ 4096 }
    {
        let Some(at) = self.index.find(&self.held, key) else {
            return self.take(t, key);
        };
        let found = self.held[at];
        if found.owner.number() != t.number() {
            return Enter::Held(found.owner);
        }
        self.held[at].count = found.count.saturating_add(1);
        Enter::Taken
    }

    /// The thread that holds the monitor of a key. None exactly where nobody does.
    pub fn holder(&self, key: Key) -> Option<ThreadNo>
        ensures holder { result ≡ owner_of (monitor_of self.now key) }
    {
        match self.index.find(&self.held, key) {
            Some(at) => Some(self.held[at].owner),
            None => None,
        }
    }

    // A monitor that nobody holds.
    fn take(&mut self, owner: ThreadNo, key: Key) -> Enter
        requires free { monitor_of self.old key ≡ None }
        ensures answer { result ≡ enter_answer owner self.old key }
        ensures taken { result ≡ Enter.Taken → self.new ≡ entered self.old key owner }
        ensures same { result ≢ Enter.Taken → self.new ≡ self.old }
        ensures few { length self.new ≤ 4096 }
    {
        let n = self.held.len();
        if n >= MOST_MONITORS {
            return Enter::Full;
        }
        let count = 1;
        self.held.push_reserved(Monitor { key, owner, count });
        self.index.link(&self.held, n);
        Enter::Taken
    }

    /// Thread `t` leaves the monitor of a key once, and gives it up when it has left it as often as it
    /// has entered it.
    ///
    /// # Errors
    ///
    /// `NotOwner` exactly where `t` doesn't hold it.
    pub fn exit(&mut self, t: ThreadNo, key: Key) -> Result<(), NotOwner>
        ensures owner { IsOk result ↔ IsHeldBy t (monitor_of self.old key) }
        ensures left { IsOk result → self.new ≡ exited self.old key }
        ensures same { IsErr result → self.new ≡ self.old }
    {
        let Some(at) = self.index.find(&self.held, key) else {
            return Err(NotOwner);
        };
        let Monitor { owner, count, .. } = self.held[at];
        if owner.number() != t.number() {
            return Err(NotOwner);
        }
        if count == 1 {
            self.index.unlink_from(&self.held, at);
            self.held.remove(at);
            self.index.link_from(&self.held, at);
        } else {
            self.held[at].count -= 1;
        }
        Ok(())
    }

    /// What has the monitor has another key from now on. Its owner and its count stay.
    pub fn rekey(&mut self, from: Key, to: Key)
        requires free { monitor_of self.old to ≡ None }
        ensures rekeyed { self.new ≡ rekeyed self.old from to }
    {
        let Some(at) = self.index.find(&self.held, from) else {
            return;
        };
        self.index.unlink_from(&self.held, at);
        self.held[at].key = to;
        self.index.link_from(&self.held, at);
    }
}
