// The slots of objects.
ghost use Rattle.std.specs.Prelude.{◌≡◌, ◌<◌, ◌≤◌, ◌+◌, None, All, IfOk, IfErr};
ghost use Rattle.ap_base.specs.Causes.{HasCauseOf};
ghost use Rattle.image_layout.specs.Places.{max_lines, first_object_line, lines_of, object_line, object_word};
ghost use Rattle.image_meaning.specs.Checks.{Words, first_fault};
ghost use Rattle.image_meaning.specs.Objects.{slot_fault};
ghost use Rattle.image_walk.specs.Walking.{Shows, Looks, IsFault, NamesIn, slot_values};

use crate::RecoverFault;
use crate::numbers::{kind_at, word_value};
use crate::words::read_word;
use ap_base::Spot;
use graph_model::{Shape, Value};
use image_layout::object_slot;
use line_image::Image;
use line_memory::LineMemory;
use std::alloc::Global;

/// The word of an object's slot.
fn slot_spot(line: u32, slot: u32) -> Spot
    requires { object_line line slot < max_lines }
    ensures line { result.line ≡ object_line line slot }
    ensures word { result.word ≡ object_word slot }
{
    object_slot(line, slot).unwrap()
}

/// Reads the slots of an object of this shape, which are so many, slot by slot.
pub(crate) fn read_values<I: Image>(
    alloc: Global,
    memory: &mut LineMemory<I>,
    shape: &Shape,
    line: u32,
    length: u32,
) -> Result<Vec<Value>, RecoverFault>
    requires most { memory.old.size ≤ max_lines }
    requires low { first_object_line ≤ line }
    requires high { line + lines_of length ≤ memory.old.size }
    ensures passes { (c : Words) → Shows memory.old c
        → IfOk result (λ values. first_fault (slot_fault memory.old.size c shape.now line) length ≡ None) }
    ensures values { (c : Words) → Shows memory.old c
        → IfOk result (λ values. values.items ≡ slot_values c shape.now line length) }
    ensures within { IfOk result (λ values. All (NamesIn memory.old.size) values.items) }
    ensures bad { (c : Words) → Shows memory.old c
        → IfErr result (IsFault (first_fault (slot_fault memory.old.size c shape.now line) length)) }
    ensures looks { Looks memory.old memory.new }
    ensures cause { HasCauseOf RecoverFault.ImageFailed memory.old.faults memory.new.faults result }
{
    let size = memory.lines();
    let mut values = Vec::with_capacity(alloc, length as usize)?;
    for i in 0..length {
        let spot = slot_spot(line, i);
        let word = read_word(memory, spot)?;
        values.push(word_value(size, kind_at(shape, i), spot.line, word)?)?;
    }
    Ok(values)
}
