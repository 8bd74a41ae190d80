// The words of values.
ghost use Rattle.std.specs.Prelude.{◌≡◌, ◌<◌, ◌+◌, ◌*◌, ◌∷◌, ℕ, All, length, map, slice_index_or, IfOk};
ghost use Rattle.graph_model.specs.declared.types.NamedValue.{NamedValue as GraphRoot};
ghost use Rattle.graph_model.specs.Heaps.{IsBelow};
ghost use Rattle.image_compact.specs.Planning.{word_by, root_word_by};

use graph_model::{NamedValue, Value};
use std::alloc::{AllocError, Global};

/// The word of a value, where the nodes begin at these lines.
fn word_of(value: Value, lines: &[u32]) -> u64
    requires { IsBelow (length lines.now) value }
    ensures { result ≡ word_by lines.now value }
{
    match value {
        Value::Int(number) => u64::from(number.cast_unsigned()),
        Value::Long(number) => number.cast_unsigned(),
        Value::Null => 0,
        Value::Obj(node) => 2 * u64::from(lines[node as usize]),
    }
}

/// The words of what roots hold.
pub(crate) fn slot_words(
    alloc: Global,
    roots: &[NamedValue],
    lines: &[u32],
) -> Result<Vec<u64>, AllocError>
    requires { All (λ (root : GraphRoot). IsBelow (length lines.now) root.value) roots.now }
    ensures { IfOk result (λ words. words.items ≡ map (root_word_by lines.now) roots.now) }
{
    let mut words = Vec::with_capacity(alloc, roots.len())?;
    for root in roots {
        words.push(word_of(root.value, lines))?;
    }
    Ok(words)
}

/// The word at a place of an object: its head, then what its slots hold, and zeros behind them.
fn object_word(head: u64, values: &[Value], lines: &[u32], place: usize) -> u64
    requires { All (IsBelow (length lines.now)) values.now }
    ensures { result ≡ slice_index_or (head ∷ map (word_by lines.now) values.now) place 0 }
{
    if place == 0 {
        return head;
    }
    if place <= values.len() {
        return word_of(values[place - 1], lines);
    }
    0
}

/// The words of a line of an object.
pub(crate) fn eight_of_object(head: u64, values: &[Value], lines: &[u32], line: u32) -> [u64; 8]
    requires { All (IsBelow (length lines.now)) values.now }
    ensures { (w : ℕ) → w < 8 → slice_index_or result w 0
        ≡ slice_index_or (head ∷ map (word_by lines.now) values.now) (8 * line + w) 0 }
{
    let mut words = [0; 8];
    for w in 0..8 {
        words[w] = object_word(head, values, lines, 8 * line as usize + w);
    }
    words
}
