// The words that spell an entry of the directory.
ghost use Rattle.std.specs.Prelude.{◌≡◌, ◌≤◌, ◌+◌, ◌-◌, ◌*◌, ◌^◌, ◌++◌, All, length, take, min, IfOk, OnOk};
ghost use Rattle.image_layout.specs.Places.{directory_words};
ghost use Rattle.image_meaning.specs.Entries.{letter_of, word_of_bytes, words_for, name_words, field_words, fields_words};
ghost use Rattle.image_meaning.specs.Entries.{spelled, ShapeEntry, RootEntry};

use ap_base::Kind;
use graph_model::{Field, Shape};
use std::alloc::AllocError;

/// How many words spell the shape; or the greatest number.
pub(crate) fn shape_length(shape: &Shape) -> u64
    ensures { result ≡ min (length (spelled (ShapeEntry shape.now))) (2 ^ 64 - 1) }
{
    let name = name_length(shape.name.as_slice()).saturating_add(2);
    name.saturating_add(fields_length(shape.fields.as_slice()))
}

/// How many words spell the fields; or the greatest number.
fn fields_length(fields: &[Field]) -> u64
    ensures { result ≡ min (length (fields_words fields.now)) (2 ^ 64 - 1) }
{
    let mut count: u64 = 0;
    for field in fields {
        count = count.saturating_add(name_length(field.name.as_slice()).saturating_add(1));
    }
    count
}

/// How many words a name takes.
fn name_length(name: &[u8]) -> u64
    ensures { result ≡ length (name_words name.now) }
{
    words_for(name.len() as u64)
}

/// How many words spell a root of this name; or the greatest number.
pub(crate) fn root_length(name: &[u8]) -> u64
    ensures { result ≡ min (length (spelled (RootEntry name.now))) (2 ^ 64 - 1) }
{
    name_length(name).saturating_add(2)
}

/// How many words so many bytes take.
fn words_for(len: u64) -> u64
    ensures { result ≡ words_for len }
{
    if len % 8 == 0 { len / 8 } else { len / 8 + 1 }
}

/// Adds the words of a root's entry.
pub(crate) fn push_root(words: &mut Vec<u64>, name: &[u8]) -> Result<(), AllocError>
    requires { length (spelled (RootEntry name.now)) ≤ directory_words }
    ensures { OnOk result (words.new.items ≡ words.old.items ++ spelled (RootEntry name.now)) }
{
    words.push(2 + (2 + name_length(name)) * (1 << 32))?;
    words.push(name.len() as u64)?;
    push_name(words, name)
}

/// Adds the words of a shape's entry.
pub(crate) fn push_shape(words: &mut Vec<u64>, shape: &Shape) -> Result<(), AllocError>
    requires { length (spelled (ShapeEntry shape.now)) ≤ directory_words }
    ensures { OnOk result (words.new.items ≡ words.old.items ++ spelled (ShapeEntry shape.now)) }
{
    let name = shape.name.as_slice();
    let fields = shape.fields.as_slice();
    words.push(1 + shape_length(shape) * (1 << 32))?;
    words.push(name.len() as u64 + fields.len() as u64 * (1 << 32))?;
    push_name(words, name)?;
    push_fields(words, fields)
}

/// Adds the words of fields.
fn push_fields(words: &mut Vec<u64>, fields: &[Field]) -> Result<(), AllocError>
    requires { length (fields_words fields.now) ≤ directory_words }
    ensures { OnOk result (words.new.items ≡ words.old.items ++ fields_words fields.now) }
{
    for field in fields {
        push_field(words, field)?;
    }
    Ok(())
}

fn push_field(words: &mut Vec<u64>, field: &Field) -> Result<(), AllocError>
    requires { length (field_words field.now) ≤ directory_words }
    ensures { OnOk result (words.new.items ≡ words.old.items ++ field_words field.now) }
{
    let name = field.name.as_slice();
    words.push(letter(field.kind) + name.len() as u64 * (1 << 32))?;
    push_name(words, name)
}

/// Adds the words of a name, eight bytes a word.
fn push_name(words: &mut Vec<u64>, name: &[u8]) -> Result<(), AllocError>
    requires { length (name_words name.now) ≤ directory_words }
    ensures { OnOk result (words.new.items ≡ words.old.items ++ name_words name.now) }
{
    let count = (name.len() + 7) / 8;
    for i in 0..count {
        words.push(first_word(&name[8 * i..]))?;
    }
    Ok(())
}

/// The word of the first eight bytes.
fn first_word(bytes: &[u8]) -> u64
    ensures { result ≡ word_of_bytes (take 8 bytes.now) }
{
    if bytes.len() <= 8 {
        word_of(bytes)
    } else {
        word_of(&bytes[..8])
    }
}

/// The number of up to eight bytes, the first byte the lowest.
fn word_of(bytes: &[u8]) -> u64
    requires { length bytes.now ≤ 8 }
    ensures { result ≡ word_of_bytes bytes.now }
{
    let mut word = 0;
    for i in 0..bytes.len() {
        word = word * 256 + u64::from(bytes[bytes.len() - 1 - i]);
    }
    word
}

/// The letter of a field's kind.
fn letter(kind: Kind) -> u64
    ensures { result ≡ letter_of kind }
{
    match kind {
        Kind::Z => 90,
        Kind::B => 66,
        Kind::C => 67,
        Kind::S => 83,
        Kind::I => 73,
        Kind::J => 74,
        Kind::L => 76,
        Kind::Text => 0,
    }
}
