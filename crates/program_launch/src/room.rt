// Whether a run's first objects find room.
ghost use Rattle.std.specs.Prelude.{◌≡◌, ◌<◌, ◌≤◌, ◌+◌, ℕ, List, sum_by, length, IfOk, IfErr, OnOk};
ghost use Rattle.run_types.specs.declared.fault.Which.TheVariants.{VolatileWords};
ghost use Rattle.graph_model.specs.declared.types.Graph.{Graph};
ghost use Rattle.class_set.specs.Facts.{facts_of};
ghost use Rattle.plain_model.specs.First.{first_heap, first_objects};
ghost use Rattle.plain_model.specs.Limits.{words_of, words_taken};
ghost use Rattle.one_space.specs.declared.parts.FirstParts.{FirstParts};
ghost use Rattle.one_space.specs.First.{LacksWords, no_graph, objects_of};
ghost use Rattle.program_launch.specs.Refusals.{IfFull};

use crate::refusals::NoLaunch;
use ap_base::ListOf;
use class_set::ClassSet;
use run_types::{Full, Which};
use std::alloc::Global;

/// Takes the words of an object with so many slots from those that are left, and answers how many still are.
fn take(left: u64, slots: &[u16]) -> Result<u64, Full>
    ensures taken { IfOk result (λ rest. left ≡ rest + (3 + length slots.now)) }
    ensures short { IfErr result (λ full. left < 3 + length slots.now) }
    ensures full { IfErr result (λ full.
        full ≡ record { which = VolatileWords; need = 3 + length slots.now; left = left }) }
{
    let need = slots.len() as u64 + 3;
    if left < need {
        return Err(Full {
            which: Which::VolatileWords,
            need,
            left,
        });
    }
    Ok(left - need)
}

/// Takes the words of the object of `System.out`, of the empty array of arguments, and of the literals.
fn take_all(words: u32, literals: &[ListOf<u16>]) -> Result<(), Full>
    ensures room { (parts : FirstParts) → parts.literals ≡ literals.now
        → OnOk result (sum_by words_of (objects_of parts) ≤ words) }
    ensures full { (parts : FirstParts) → parts.literals ≡ literals.now
        → IfErr result (LacksWords words (objects_of parts)) }
{
    let behind_stream = take(u64::from(words), &[])?;
    let mut left = take(behind_stream, &[])?;
    for text in literals {
        let rest = take(left, text.as_slice())?;
        left = rest;
    }
    Ok(())
}

/// Looks whether the objects that a run of the set begins with, beside those of an image, find room in so many words of
/// volatile memory. Nothing is made of them.
///
/// # Errors
///
/// `Full` exactly where they take more words than there are: it tells the words of the first one that finds fewer, and
/// those that were left. `OutOfMemory` may stand in place of any answer.
pub fn find_room(alloc: Global, set: &ClassSet, words: u32) -> Result<(), NoLaunch>
    ensures room { (opening : Graph)
        → OnOk result (words_taken opening (first_heap (facts_of set.now) opening) ≤ words) }
    ensures full { IfErr result (λ e. IfFull e
        (LacksWords words (first_objects (facts_of set.now) no_graph))) }
{
    let literals = set.literals(alloc)?;
    match take_all(words, literals.as_slice()) {
        Ok(()) => Ok(()),
        Err(full) => Err(NoLaunch::Full(full)),
    }
}
