// The history as a list that takes no memory once its room was reserved.
ghost use Rattle.std.specs.Prelude.{◌≡◌, ◌<◌, ◌≤◌, ◌+◌, ◌-◌, ◌^◌, ◌↔◌, [], ◌∷◌, ◌++◌, length, OnOk, OnErr, IfErr, IsErr};
ghost use Rattle.std.specs.Prelude.{IfSome, IsNone, All, slice_get, option_copied};
ghost use Rattle.run_history.specs.Recorded.{History, NamesRightly, with_act, acts_of, named_at};
ghost use Rattle.run_history.specs.Knowing.{Knowledge, known_after, guard_of};
ghost use Rattle.run_history.specs.OpenGuards.{IsOutsideRegions};
ghost use Rattle.run_types.specs.declared.fault.Which.TheVariants.{Acts as ActsLimit};

use crate::open_guard::{first_guard, regions_after};
use crate::{Act, Op};
use ap_base::{Place, ThreadNo};
use run_types::{Full, Which};
use std::alloc::{AllocError, Global};
use std::marker::Model;

/// An act, and where its objects stand among those that were named.
#[derive(Clone, Copy, Debug)]
pub(crate) struct Held {
    pub(crate) act: Act,
    from: usize,
    to: usize,
}

/// A history: acts in order, a Joined act with its objects.
#[derive(Drop)]
pub struct Acts {
    held: Vec<Held>,
    objects: Vec<u32>,
    // how many of the objects belong to acts
    taken: usize,
    limit: u32,
    room: u32,
}

impl Model for Acts {
    ghost use Rattle.run_history.specs.Recorded.{History};

    ghost Value = { History };

    ghost use Rattle.run_history.specs.HeldActs.{history_of, AreHeld};

    ghost view = { history_of };

    ghost invariant = { AreHeld };
}

impl Acts {
    /// The empty history, with room for nothing. Takes no memory.
    pub fn new(alloc: Global) -> Acts
        ensures empty { result ≡ record { acts = []; named = []; limit = 0; room = 0 } }
    {
        Acts {
            held: Vec::new(alloc),
            objects: Vec::new(alloc),
            taken: 0,
            limit: 0,
            room: 0,
        }
    }

    /// Takes the memory for `limit` acts in all, and for `objects` further named objects.
    pub fn reserve(&mut self, limit: u32, objects: u32) -> Result<(), AllocError>
        requires { objects ≤ 2 ^ 32 - 4 }
        ensures ok { OnOk result (self.new ≡ record self.old { limit = limit; room = objects }) }
        ensures err { OnErr result (self.new ≡ self.old) }
    {
        self.held
            .reserve((limit as usize).saturating_sub(self.held.len()))?;
        self.objects.reserve(objects as usize)?;
        self.limit = limit;
        self.room = objects;
        Ok(())
    }

    /// Names an object for the next Joined act. Takes no memory.
    pub fn name(&mut self, object: u32)
        requires { 0 < self.old.room }
        ensures named { self.new ≡ record self.old { named = self.old.named ++ object ∷ []; room = self.old.room - 1 } }
    {
        self.objects.push_reserved(object);
        self.room -= 1;
    }

    /// Adds an act; a Joined act takes all objects that were named since the last one. Takes no memory.
    ///
    /// # Errors
    ///
    /// `Full` exactly where the history has `limit` acts.
    pub fn push(&mut self, act: Act) -> Result<(), Full>
        ensures full { IsErr result ↔ (self.old.limit ≤ length self.old.acts) }
        ensures numbers { IfErr result (λ full. full ≡ record { which = ActsLimit; need = 1; left = 0 }) }
        ensures pushed { OnOk result (self.new ≡ with_act self.old act) }
        ensures same { OnErr result (self.new ≡ self.old) }
    {
        if self.held.len() >= self.limit as usize {
            return Err(Full {
                which: Which::Acts,
                need: 1,
                left: 0,
            });
        }
        let from = self.taken;
        if matches!(act.op, Op::Joined) {
            self.taken = self.objects.len();
        }
        self.held.push_reserved(Held {
            act,
            from,
            to: self.taken,
        });
        Ok(())
    }

    /// The objects of act `i`: none where it isn't a Joined act.
    pub fn named(&self, i: u32) -> &[u32]
        ensures named { result.now ≡ named_at self.now i }
        ensures rightly { All (λ r. NamesRightly r.act.op r.named) self.now.acts }
    {
        match self.held.get(i as usize) {
            Some(held) => &self.objects[held.from..held.to],
            None => &[],
        }
    }

    /// How many acts there are.
    pub fn len(&self) -> u32
        ensures len { result ≡ length self.now.acts }
    {
        self.held.len() as u32
    }

    /// Act `i`. `None` exactly from `len` on.
    pub fn get(&self, i: u32) -> Option<&Act>
        ensures act { option_copied result ≡ slice_get (acts_of self.now) i }
    {
        let at = i as usize;
        if at < self.held.len() {
            Some(&self.held[at].act)
        } else {
            None
        }
    }

    /// The thread whose open region has guarded a place, after these acts, before which there was one thread, outside
    /// regions. Takes no memory, and time for each act.
    pub fn guarded_by(&self, place: Place) -> Option<ThreadNo>
        ensures guarded { (first : Knowledge) → IsOutsideRegions first
            → result ≡ guard_of (known_after first self.now.acts).guards place }
    {
        let regions = regions_after(&self.held);
        first_guard(&self.held, &regions, place)
    }
}
