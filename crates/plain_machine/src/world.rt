// The world of a machine, and its steps.
ghost use Rattle.std.specs.Prelude.{◌≡◌, ◌⊎◌, ◌≢◌, IfOk, List, OnErr, OnOk};
ghost use Rattle.plain_heap.specs.Heaps.{shown_of};
ghost use Rattle.plain_model.specs.Facts.{SetFacts};
ghost use Rattle.step_forms.specs.Follows.{Agrees};
ghost use Rattle.step_forms.specs.Needs.{IsAskable};
ghost use Rattle.plain_machine.specs.Trying.{DoesOr, IsKept, IsReady, IsShort, MayBe};

use crate::foreseeing::foreseen;
use crate::kinds::{asks_print, changes_heap};
use crate::printing::printing;
use crate::same::is_same;
use crate::trying::made;
use ap_base::ThreadNo;
use natives::{Reply, Request};
use plain_heap::PlainHeap;
use run_history::Op;
use shared_objects::{Rest, Types};
use std::alloc::{AllocError, Global};

/// How many acts a machine follows at most, so that no count of its monitors and regions is at its
/// end.
const MOST_STEPS: u64 = 18_446_744_073_709_551_613;

/// The world of a machine: the heap, the rest, and how many steps were made.
#[derive(Drop)]
pub struct PlainWorld {
    pub heap: PlainHeap,
    pub rest: Rest,
    pub steps: u64,
}

/// Whether a step may be tried: whatever it does but this operation changes the heap at most.
fn may_be(heap: &PlainHeap, rest: &mut Rest, t: ThreadNo, request: &Request, op: &Op) -> bool
    requires ready { (set : SetFacts) × (steps : _) × IsReady set (shown_of heap.now) rest.old steps
        × IsAskable set (λ n i. Unit {0}) (λ n. Unit {0}) (shown_of heap.now) rest.old t
        request.now }
    ensures may { (set : SetFacts) → Agrees set (shown_of heap.now) rest.old
        → IsAskable set (λ n i. Unit {0}) (λ n. Unit {0}) (shown_of heap.now) rest.old t request.now
        → MayBe set t request.now op.now (shown_of heap.now) rest.old result }
    ensures same { rest.new ≡ rest.old }
{
    match foreseen(heap, rest, t, request) {
        None => true,
        Some(only) => is_same(&only, op),
    }
}

impl PlainWorld {
    /// Makes the step of a request, if it does this operation, and answers its reply. All is as
    /// before where it doesn't, and
    /// where it can't be told.
    ///
    /// # Errors
    ///
    /// Where there is no memory for the object that the step makes, no more monitors may be held,
    /// or 2^64 - 3 steps were made.
    pub(crate) fn act<C: Types>(
        &mut self,
        alloc: Global,
        set: &C,
        t: ThreadNo,
        request: &Request,
        op: &Op,
    ) -> Result<Option<Reply>, AllocError>
        requires ready { IsReady (C.facts set.now) (shown_of self.old.heap) self.old.rest
            self.old.steps }
        requires asks { IsAskable (C.facts set.now) (λ n i. Unit {0}) (λ n. Unit {0})
            (shown_of self.old.heap) self.old.rest t request.now }
        ensures ready { IsReady (C.facts set.now) (shown_of self.new.heap) self.new.rest
            self.new.steps }
        ensures does { IfOk result (λ done. DoesOr (C.facts set.now) t request.now op.now
            (shown_of self.old.heap) self.old.rest done (shown_of self.new.heap) self.new.rest) }
        ensures same { OnErr result (IsKept (shown_of self.old.heap) self.old.rest
            (shown_of self.new.heap) self.new.rest) }
        ensures cause { OnErr result ((self.old.steps ≡ 18446744073709551613)
            ⊎ IsShort (C.facts set.now) t request.now (shown_of self.old.heap) self.old.rest) }
    {
        shared_steps::a_step_leaves_what_agrees();
        if asks_print(request) {
            return match printing(request, op) {
                Some(n) => Ok(Some(Reply::Printed(n))),
                None => Ok(None),
            };
        }
        if !may_be(&self.heap, &mut self.rest, t, request, op) {
            return Ok(None);
        }
        if self.steps >= MOST_STEPS {
            return Err(AllocError);
        }
        let Some(did) = made(alloc, set, &mut self.heap, &mut self.rest, t, request)? else {
            return Ok(None);
        };
        if is_same(&did.op, op) {
            self.steps += 1;
            return Ok(Some(did.reply));
        }
        if changes_heap(&did.op) {
            self.heap.take_back();
        }
        Ok(None)
    }
}
