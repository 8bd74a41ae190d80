// Whose open region has guarded a place.
ghost use Rattle.std.specs.Prelude.{◌≡◌, ◌<◌, ◌-◌, ◌^◌, All, length, replicate};
ghost use Rattle.run_history.specs.OpenGuards.{IsNumbered, first_guard, guards_place, no_region, region_after, regions_from};
ghost use Rattle.run_history.specs.OpenGuards.{threads_with};

use crate::Op;
use crate::acts::Held;
use ap_base::{Place, ThreadNo};

/// A thread's region after some acts: how many are open, one within another, and how many acts there were by the last
/// End that matched an outermost Begin, that End among them.
#[derive(Clone, Copy, Debug, PartialEq, Eq)]
pub(crate) struct Region {
    depth: u32,
    ended: u32,
}

impl Region {
    /// The region of the thread that did this as the act of this count. Only a thread that is there begins one.
    fn after(self, op: Op, count: u32, is_there: bool) -> Region
        ensures { result ≡ region_after self op count is_there }
    {
        match op {
            Op::Begin if is_there => Region {
                depth: self.depth.saturating_add(1),
                ended: self.ended,
            },
            Op::End => Region {
                depth: self.depth.saturating_sub(1),
                ended: if self.depth == 1 { count } else { self.ended },
            },
            _ => self,
        }
    }
}

/// How many threads there are after an operation.
fn threads_with(threads: u64, op: Op) -> u64
    requires { threads < 2 ^ 64 - 1 }
    ensures { result ≡ threads_with threads op }
{
    match op {
        Op::Start { .. } => threads + 1,
        _ => threads,
    }
}

/// The regions of all threads after these acts, before which there was one thread, outside regions.
pub(crate) fn regions_after(acts: &[Held]) -> [Region; 64]
    requires few { length acts.now < 2 ^ 32 }
    ensures regions { result ≡ regions_from 0 1 (replicate 64 no_region) acts.now }
    ensures numbered { All IsNumbered acts.now }
{
    let mut regions = [Region { depth: 0, ended: 0 }; 64];
    let mut count = 0;
    let mut threads = 1;
    let mut rest = acts;
    'acts: loop {
        match rest {
            [] => return regions,
            [held, behind @ ..] => {
                let act = held.act;
                let at = act.thread.number();
                count += 1;
                regions[at as usize] = regions[at as usize].after(
                    act.op,
                    count,
                    u64::from(at) < threads,
                );
                threads = threads_with(threads, act.op);
                rest = behind;
            }
        }
    }
}

fn guards_place(op: Op, place: Place) -> bool
    ensures { result ≡ guards_place op place }
{
    match op {
        Op::Guarded { place: guarded } => guarded == place,
        _ => false,
    }
}

/// The thread of the first of these acts that guarded the place, and whose region hasn't ended since.
pub(crate) fn first_guard(acts: &[Held], regions: &[Region; 64], place: Place) -> Option<ThreadNo>
    requires few { length acts.now < 2 ^ 32 }
    ensures { result ≡ first_guard regions.now place 0 acts.now }
{
    let mut before = 0;
    let mut rest = acts;
    'acts: loop {
        match rest {
            [] => return None,
            [held, behind @ ..] => {
                let thread = held.act.thread;
                let region = regions[thread.number() as usize];
                if guards_place(held.act.op, place) && region.ended <= before {
                    return Some(thread);
                }
                before += 1;
                rest = behind;
            }
        }
    }
}
