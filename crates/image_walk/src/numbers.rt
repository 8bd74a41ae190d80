// The values of single words.
ghost use Rattle.std.specs.Prelude.{◌≡◌, ◌<◌, ◌≤◌, ◌^◌, true, None, pos, IfOk, IfErr, IsErrOf};
ghost use Rattle.std.specs.Int.{w32, cast_signed};
ghost use Rattle.ap_base.specs.declared.kind.Kind.TheVariants.{L};
ghost use Rattle.graph_model.specs.declared.types.Value.TheVariants.{Int as IntValue};
ghost use Rattle.image_layout.specs.Places.{max_lines};
ghost use Rattle.image_meaning.specs.Objects.{is_reference, is_number, value_of, word_fault, kind_of};
ghost use Rattle.image_walk.specs.Walking.{IsFault, NamesIn};

use crate::RecoverFault;
use ap_base::Kind;
use graph_model::{Shape, Value};
use image_layout::{BadReason, FIRST_OBJECT_LINE};

/// Whether a word is null or names a line where an object of an image of so many lines may begin.
fn is_reference(size: u64, word: u64) -> bool
    ensures { result ≡ is_reference size word }
{
    word == 0 || (word % 2 == 0 && u64::from(FIRST_OBJECT_LINE) <= word / 2 && word / 2 < size)
}

/// The value of a reference's word at a line of an image of so many lines.
pub(crate) fn reference_value(size: u64, line: u32, word: u64) -> Result<Value, RecoverFault>
    requires { size ≤ max_lines }
    ensures passes { IfOk result (λ value. word_fault size L line word ≡ None) }
    ensures value { IfOk result (λ value. value ≡ value_of L word) }
    ensures within { IfOk result (NamesIn size) }
    ensures never { IsErrOf result RecoverFault.ImageFailed → ⊥ }
    ensures bad { IfErr result (IsFault (word_fault size L line word)) }
{
    if !is_reference(size, word) {
        return Err(RecoverFault::Bad {
            line,
            reason: BadReason::Reference,
        });
    }
    if word == 0 {
        return Ok(Value::Null);
    }
    Ok(Value::Obj((word / 2) as u32))
}

/// Whether a word is one of a value of this kind, which isn't that of references.
fn is_number(kind: Kind, word: u64) -> bool
    ensures { result ≡ is_number kind word }
{
    match kind {
        Kind::Z => word < 2,
        Kind::C | Kind::Text => word < 1 << 16,
        Kind::B | Kind::S | Kind::I => word < 1 << 32,
        Kind::J => true,
        Kind::L => false,
    }
}

/// The int of a word of at most 16 bits.
fn small_int(word: u64) -> Value
    requires { word < 2 ^ 16 }
    ensures { result ≡ IntValue (pos word) }
{
    Value::Int(word as i32)
}

/// The int that a word has in its lower half.
fn whole_int(word: u64) -> Value
    requires { word < 2 ^ 32 }
    ensures { result ≡ IntValue (cast_signed w32 word) }
{
    Value::Int((word as u32).cast_signed())
}

/// The value of a word that is one of a value of this kind.
fn number_value(kind: Kind, word: u64) -> Value
    requires { is_number kind word ≡ true }
    ensures { result ≡ value_of kind word }
{
    match kind {
        Kind::Z | Kind::C | Kind::Text => small_int(word),
        Kind::B | Kind::S | Kind::I => whole_int(word),
        Kind::J => Value::Long(word.cast_signed()),
        Kind::L => Value::Null,
    }
}

/// The value of a word of this kind at a line of an image of so many lines.
pub(crate) fn word_value(size: u64, kind: Kind, line: u32, word: u64) -> Result<Value, RecoverFault>
    requires { size ≤ max_lines }
    ensures passes { IfOk result (λ value. word_fault size kind line word ≡ None) }
    ensures value { IfOk result (λ value. value ≡ value_of kind word) }
    ensures within { IfOk result (NamesIn size) }
    ensures never { IsErrOf result RecoverFault.ImageFailed → ⊥ }
    ensures bad { IfErr result (IsFault (word_fault size kind line word)) }
{
    if kind == Kind::L {
        return reference_value(size, line, word);
    }
    if !is_number(kind, word) {
        return Err(RecoverFault::Bad {
            line,
            reason: BadReason::Value,
        });
    }
    Ok(number_value(kind, word))
}

/// The kind of an object's slot: that of the elements, or of its field.
pub(crate) fn kind_at(shape: &Shape, slot: u32) -> Kind
    ensures { result ≡ kind_of shape.now slot }
{
    if let Some(kind) = shape.element {
        return kind;
    }
    match shape.fields.as_slice().get(slot as usize) {
        Some(field) => field.kind,
        None => Kind::L,
    }
}
