// What an audit keeps beside the plain run, and whether an act may come next by it.
ghost use Rattle.std.specs.Prelude.{◌≡◌, ◌<◌, ◌≤◌, ◌-◌, ◌^◌, [], IfOk, Ok, OnOk, length, true};
ghost use Rattle.run_history.specs.declared.act.Op.TheVariants.{Joined};
ghost use Rattle.run_history.specs.Recorded.{NamesRightly};
ghost use Rattle.audit_keeping.specs.Keeping.{IsOther};
ghost use Rattle.audit_acts.specs.Keeps.{GoesOn, IsJudged, Judges, MayTake, Takes, doubt_in};

use audit_keeping::Keeping;
use graph_model::Heap;
use kept_lists::{Doubt, Doubts, do_op};
use run_history::{Act, Op};
use std::alloc::{AllocError, Global};

/// How many objects a heap may have before one more: their numbers have 32 bits.
const MOST_OBJECTS: usize = 4_294_967_295;

/// What an audit keeps beside the plain run: the heap after the acts so far, what is known of persistence, the doubts of each
/// act, and the number of image calls at the last one.
#[derive(Drop)]
pub struct Kept {
    pub heap: Heap,
    pub keeping: Keeping,
    pub doubts: Doubts,
    pub at: u64,
}

/// How an act of a thread, whose region is so deep, is in doubt.
fn doubt_of(keeping: &Keeping, act: &Act, depth: u64) -> Doubt
    ensures { result ≡ doubt_in keeping.now act.now.thread depth act.now.op }
{
    match act.op {
        Op::Stored { place, .. } => Doubt::of_store(
            keeping.is_durable(place),
            depth,
            keeping.is_closing(act.thread),
        ),
        _ => Doubt::Never,
    }
}

impl Kept {
    /// Is told an act that isn't Joined and may come next.
    fn take(&mut self, alloc: Global, depth: u64, act: &Act) -> Result<(), AllocError>
        requires other { IsOther act.now.op }
        requires may { MayTake self.old depth act.now }
        ensures { OnOk result (Takes self.old depth act.now self.new) }
    {
        let doubt = doubt_of(&self.keeping, act, depth);
        do_op(alloc, &mut self.heap, act.op)?;
        self.keeping
            .go_on(alloc, &self.heap, act.thread, depth, act.op)?;
        self.doubts.tell(act.thread, act.op, doubt, depth == 1)?;
        self.at = act.at;
        Ok(())
    }

    /// Judges an act that isn't Joined.
    fn judge_one(
        &mut self,
        alloc: Global,
        ahead: Option<Op>,
        about: bool,
        depth: u64,
        act: &Act,
    ) -> Result<bool, AllocError>
        requires judged { IsJudged self.old act.now ahead about depth }
        requires few { length self.old.heap.objects < 2 ^ 32 - 1 }
        requires later { self.old.at ≤ act.now.at }
        requires other { IsOther act.now.op }
        ensures exact { IfOk result (Judges self.old act.now [] ahead about depth) }
        ensures goes { result ≡ Ok true → GoesOn self.old act.now [] ahead about depth self.new }
    {
        let _small = act.thread.number();
        if !self
            .keeping
            .may_come(ahead, about, act.thread, depth, act.op)
        {
            return Ok(false);
        }
        self.take(alloc, depth, act)?;
        Ok(true)
    }

    /// Judges a Joined act.
    fn judge_joined(
        &mut self,
        ahead: Option<Op>,
        about: bool,
        depth: u64,
        act: &Act,
        named: &[u32],
    ) -> Result<bool, AllocError>
        requires judged { IsJudged self.old act.now ahead about depth }
        requires later { self.old.at ≤ act.now.at }
        requires joined { act.now.op ≡ Joined }
        ensures exact { IfOk result (Judges self.old act.now named.now ahead about depth) }
        ensures goes { result ≡ Ok true → GoesOn self.old act.now named.now ahead about depth self.new }
    {
        let _small = act.thread.number();
        if self.keeping.owes_fence(act.thread) {
            return Ok(false);
        }
        if !self.keeping.join(&self.heap, named) {
            return Ok(false);
        }
        self.doubts
            .tell(act.thread, act.op, Doubt::Never, depth == 1)?;
        self.at = act.at;
        Ok(true)
    }

    /// Judges an act, with the objects that it names: whether it may come next. Where it may, what is kept stands for the acts
    /// with it then. `ahead` is the store or the End that its thread's request does next, `about` whether a visible act is what
    /// that does, and `depth` how deep the thread's region is.
    ///
    /// # Errors
    ///
    /// Want of memory, and of numbers: there are 2^32 - 1 objects.
    pub fn judge(
        &mut self,
        alloc: Global,
        ahead: Option<Op>,
        about: bool,
        depth: u64,
        act: &Act,
        named: &[u32],
    ) -> Result<bool, AllocError>
        requires judged { IsJudged self.old act.now ahead about depth }
        requires named { NamesRightly act.now.op named.now }
        ensures exact { IfOk result (Judges self.old act.now named.now ahead about depth) }
        ensures goes { result ≡ Ok true → GoesOn self.old act.now named.now ahead about depth self.new }
    {
        if act.at < self.at {
            return Ok(false);
        }
        if self.heap.objects.len() >= MOST_OBJECTS {
            return Err(AllocError);
        }
        match act.op {
            Op::Joined => self.judge_joined(ahead, about, depth, act, named),
            _ => self.judge_one(alloc, ahead, about, depth, act),
        }
    }
}
