// The heads of objects.
ghost use Rattle.std.specs.Prelude.{◌≡◌, ◌<◌, ◌≤◌, ◌+◌, ◌/◌, ◌%◌, ◌^◌, None, length, IfOk, IfErr, IsErrOf};
ghost use Rattle.image_layout.specs.Places.{lines_of};
ghost use Rattle.image_meaning.specs.Objects.{holds_slots};
ghost use Rattle.image_walk.specs.Walking.{IsFault, head_fault};

use crate::RecoverFault;
use graph_model::Shape;
use image_layout::{BadReason, head_parts, lines_of};
use shared_graph::SharedShape;

/// What an object's head tells: its shape's number, and how many slots it has.
#[derive(Clone, Copy)]
pub(crate) struct Head {
    pub(crate) shape: u32,
    pub(crate) length: u32,
}

/// Whether an object of the shape may have so many slots.
fn holds_slots(shape: &Shape, slots: u32) -> bool
    ensures { result ≡ holds_slots shape.now.element shape.now.fields slots }
{
    shape.element.is_some() || shape.fields.len() as u64 == u64::from(slots)
}

/// Checks the head of the object that begins at a line of an image of so many lines.
pub(crate) fn check_head(
    shapes: &[SharedShape],
    size: u64,
    line: u32,
    word: u64,
) -> Result<Head, RecoverFault>
    ensures passes { IfOk result (λ head. head_fault shapes.now size line word ≡ None) }
    ensures shape { IfOk result (λ head. head.shape ≡ word % 2 ^ 32) }
    ensures slots { IfOk result (λ head. head.length ≡ word / 2 ^ 32) }
    ensures known { IfOk result (λ head. head.shape < length shapes.now) }
    ensures high { IfOk result (λ head. line + lines_of head.length ≤ size) }
    ensures never { IsErrOf result RecoverFault.ImageFailed → ⊥ }
    ensures bad { IfErr result (IsFault (head_fault shapes.now size line word)) }
{
    let (shape, length) = head_parts(word);
    if shape as usize >= shapes.len() {
        return Err(RecoverFault::Bad {
            line,
            reason: BadReason::Shape,
        });
    }
    let behind = u64::from(line) + u64::from(lines_of(length));
    if !holds_slots(shapes[shape as usize].get(), length) || behind > size {
        return Err(RecoverFault::Bad {
            line,
            reason: BadReason::Length,
        });
    }
    Ok(Head { shape, length })
}
