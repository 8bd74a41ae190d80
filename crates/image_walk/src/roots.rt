// The root slots.
ghost use Rattle.std.specs.Prelude.{◌≡◌, ◌<◌, ◌≤◌, ◌++◌, None, All, IfOk, OnOk, IfErr, IsErrOf};
ghost use Rattle.ap_base.specs.Causes.{HasCauseOf};
ghost use Rattle.image_layout.specs.Places.{min_lines, max_lines, root_slots, slot_line, slot_word};
ghost use Rattle.image_meaning.specs.Checks.{Words};
ghost use Rattle.image_meaning.specs.Meaning.{roots_fault, root_values_of};
ghost use Rattle.image_walk.specs.Walking.{Shows, Looks, IsFault, NamesIn, slot_check, used_value};

use crate::RecoverFault;
use crate::numbers::reference_value;
use crate::words::read_word;
use ap_base::Spot;
use graph_model::Value;
use image_layout::{BadReason, ROOT_SLOTS, slot_spot};
use line_image::Image;
use line_memory::LineMemory;
use std::alloc::Global;

/// The word of a root slot.
fn root_spot(root: u32) -> Spot
    requires { root < root_slots }
    ensures line { result.line ≡ slot_line root }
    ensures word { result.word ≡ slot_word root }
{
    slot_spot(root).unwrap()
}

/// Reads the root slots, of which so many are in use, slot by slot.
pub(crate) fn read_roots<I: Image>(
    alloc: Global,
    memory: &mut LineMemory<I>,
    roots: usize,
) -> Result<Vec<Value>, RecoverFault>
    requires enough { min_lines ≤ memory.old.size }
    requires most { memory.old.size ≤ max_lines }
    ensures passes { (c : Words) → Shows memory.old c
        → IfOk result (λ values. roots_fault memory.old.size c roots ≡ None) }
    ensures values { (c : Words) → Shows memory.old c → roots ≤ root_slots
        → IfOk result (λ values. values.items ≡ root_values_of c roots) }
    ensures within { IfOk result (λ values. All (NamesIn memory.old.size) values.items) }
    ensures bad { (c : Words) → Shows memory.old c → IfErr result (IsFault (roots_fault memory.old.size c roots)) }
    ensures looks { Looks memory.old memory.new }
    ensures cause { HasCauseOf RecoverFault.ImageFailed memory.old.faults memory.new.faults result }
{
    let size = memory.lines();
    let mut values = Vec::new(alloc);
    for root in 0..ROOT_SLOTS {
        let spot = root_spot(root);
        let word = read_word(memory, spot)?;
        take_root(&mut values, size, (root as usize) < roots, spot.line, word)?;
    }
    Ok(values)
}

/// Adds the value of a root slot that is in use; the word of any other is 0.
fn take_root(
    values: &mut Vec<Value>,
    size: u64,
    in_use: bool,
    line: u32,
    word: u64,
) -> Result<(), RecoverFault>
    requires { size ≤ max_lines }
    ensures passes { OnOk result (slot_check size in_use line word ≡ None) }
    ensures values { OnOk result (values.new.items ≡ values.old.items ++ used_value in_use word) }
    ensures within { All (NamesIn size) values.old.items → OnOk result (All (NamesIn size) values.new.items) }
    ensures bad { IfErr result (IsFault (slot_check size in_use line word)) }
    ensures never { IsErrOf result RecoverFault.ImageFailed → ⊥ }
{
    if in_use {
        values.push(reference_value(size, line, word)?)?;
        return Ok(());
    }
    if word != 0 {
        return Err(RecoverFault::Bad {
            line,
            reason: BadReason::Reference,
        });
    }
    Ok(())
}
