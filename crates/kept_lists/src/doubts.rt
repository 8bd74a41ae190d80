// What a stop may do to each act.
ghost use Rattle.std.specs.Prelude.{◌≡◌, ◌<◌, ◌++◌, [], ◌∷◌, OnOk, IfOk, get_or, length, replicate};
ghost use Rattle.run_history.specs.Kept.{survives};
ghost use Rattle.kept_lists.specs.Doubts.{doubt_of, fate_now, last_after, last_of, lasts_after, no_last};
ghost use Rattle.audit_verdicts.specs.Picked.{has_bit};

use ap_base::ThreadNo;
use run_history::Op;
use std::alloc::{AllocError, Global};

/// Whether an act was in doubt as it came: a durable store outside regions, in an open region, or in one that was closing.
/// All else never is.
#[derive(Clone, Copy)]
pub enum Doubt {
    Never,
    Single,
    Open,
    Closing,
}

/// How many acts there were before a thread's last fence, its last Closing, and the last End of a whole region of it.
#[derive(Clone, Copy)]
pub struct Last {
    pub fenced: usize,
    pub closed: usize,
    pub ended: usize,
}

/// The doubts of some acts, by their numbers, and what has settled them since, by threads.
#[derive(Drop)]
pub struct Doubts {
    pub doubts: Vec<Doubt>,
    pub lasts: Vec<Last>,
}

impl Doubt {
    /// The doubt of a store whose place is durable or isn't, of a thread whose region is so deep, and closing or not.
    pub fn of_store(is_durable: bool, depth: u64, is_closing: bool) -> Doubt
        ensures { result ≡ doubt_of is_durable depth is_closing }
    {
        if !is_durable {
            Doubt::Never
        } else if depth == 0 {
            Doubt::Single
        } else if is_closing {
            Doubt::Closing
        } else {
            Doubt::Open
        }
    }
}

impl Last {
    /// After an operation of the thread that so many acts came before; an End is outermost or isn't.
    fn after(self, op: Op, is_outermost: bool, count: usize) -> Last
        ensures { result ≡ last_after self op is_outermost count }
    {
        match op {
            Op::Fenced => Last {
                fenced: count,
                closed: self.closed,
                ended: self.ended,
            },
            Op::Closing => Last {
                fenced: self.fenced,
                closed: count,
                ended: self.ended,
            },
            Op::End => Last {
                fenced: self.fenced,
                closed: self.closed,
                ended: if is_outermost { count } else { self.ended },
            },
            _ => self,
        }
    }
}

/// Whether the word has the thread's bit.
fn has_bit(keep: u64, t: ThreadNo) -> bool
    ensures { result ≡ has_bit keep t }
{
    (keep >> t.number()) & 1 == 1
}

impl Doubts {
    /// No acts yet.
    pub fn new(alloc: Global) -> Result<Doubts, AllocError>
        ensures doubts { IfOk result (λ d. d.doubts.items ≡ []) }
        ensures lasts { IfOk result (λ d. d.lasts.items ≡ replicate 64 no_last) }
    {
        Ok(Doubts {
            doubts: Vec::new(alloc),
            lasts: vec![in alloc; Last {
                fenced: 0,
                closed: 0,
                ended: 0
            }; 64]?,
        })
    }

    /// One more act, with its doubt.
    pub fn tell(
        &mut self,
        t: ThreadNo,
        op: Op,
        doubt: Doubt,
        is_outermost: bool,
    ) -> Result<(), AllocError>
        requires threads { length self.old.lasts.items ≡ 64 }
        ensures doubts { OnOk result (self.new.doubts.items ≡ self.old.doubts.items ++ doubt ∷ []) }
        ensures lasts { OnOk result (self.new.lasts.items
            ≡ lasts_after self.old.lasts.items t op is_outermost (length self.old.doubts.items)) }
    {
        let count = self.doubts.len();
        self.doubts.push(doubt)?;
        let at = t.number() as usize;
        self.lasts[at] = self.lasts[at].after(op, is_outermost, count);
        Ok(())
    }

    /// Whether act `i`, which the thread did, is kept where the word has the bits of the threads whose unfenced store or
    /// closing region is kept.
    pub fn keeps(&self, keep: u64, i: usize, t: ThreadNo) -> bool
        requires there { i < length self.now.doubts.items }
        requires threads { length self.now.lasts.items ≡ 64 }
        ensures { result ≡ survives (has_bit keep) (has_bit keep)
            (fate_now (last_of self.now.lasts.items t) i t (get_or self.now.doubts.items i Doubt.Never)) }
    {
        let last = self.lasts[t.number() as usize];
        match self.doubts[i] {
            Doubt::Never => true,
            Doubt::Single => i < last.fenced || has_bit(keep, t),
            Doubt::Open => i < last.ended || (i < last.closed && has_bit(keep, t)),
            Doubt::Closing => i < last.ended || has_bit(keep, t),
        }
    }
}
