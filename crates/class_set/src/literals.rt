//! The string literals of class files.

ghost use Rattle.std.specs.Prelude.{◌≡◌, ℕ, ◌≢◌, ◌+◌, ◌<◌, ◌≤◌, ◌∷◌, [], drop, length, IfOk, OnOk};
ghost use Rattle.std.specs.Option.{option_copied, option_to_list};
ghost use Rattle.const_pool.specs.Pool.{string_at, utf8_at};
ghost use Rattle.text_table.specs.Texts.{with_texts};
ghost use Rattle.class_set.specs.Literals.{chars_of, index_or_none, indices_from, strings_of, texts_of};
ghost use Rattle.class_set.specs.Marks.{AreAdded, text_at_some};

use crate::marks::{is_marked, mark, no_marks};
use crate::names::add_name;
use class_file::ClassFile;
use const_pool::{Entry, Name, Pool};
use std::alloc::{AllocError, Global};
use text_table::Texts;

/// The UTF-16 code unit at the front of a text in modified UTF-8, and how many bytes spell it.
pub(crate) fn front_char(text: &[u8]) -> (u16, usize)
    requires { text.now ≢ [] }
    ensures char { chars_of text.now ≡ result.0 ∷ chars_of (drop result.1 text.now) }
    ensures some { 0 < result.1 }
    ensures within { result.1 ≤ length text.now }
{
    match text {
        [a, b, c, ..] if *a >= 224 => (
            4096 * u16::from(*a % 16) + 64 * u16::from(*b % 64) + u16::from(*c % 64),
            3,
        ),
        [a, b, ..] if *a >= 128 => (64 * u16::from(*a % 32) + u16::from(*b % 64), 2),
        [a, ..] => (u16::from(*a), 1),
        [] => (0, 0),
    }
}

/// How many UTF-16 code units a text in modified UTF-8 spells (JVMS 4.4.7).
fn char_count(text: &[u8]) -> usize
    ensures { result ≡ length (chars_of text.now) }
{
    let mut count = 0;
    let mut rest = text;
    while !rest.is_empty() {
        let (_, size) = front_char(rest);
        count += 1;
        rest = &rest[size..];
    }
    count
}

/// The index of the text of the String entry at an index.
fn text_index(pool: &Pool, index: u16) -> Option<u16>
    ensures { string_at pool.now index ≡ text_at_some pool.now result }
{
    match pool.get(index) {
        Some(Entry::String { text }) => Some(*text),
        _ => None,
    }
}

/// Adds the text at an index of a pool, once for each index.
fn add_text(
    alloc: Global,
    texts: &mut Texts,
    added: &mut Vec<bool>,
    pool: &Pool,
    index: u16,
) -> Result<(), AllocError>
    requires added { AreAdded pool.now texts.old added.old.items }
    ensures texts { OnOk result (texts.new
        ≡ with_texts texts.old (option_to_list (utf8_at pool.now index))) }
    ensures added { OnOk result (AreAdded pool.now texts.new added.new.items) }
{
    if is_marked(added.as_slice(), index) {
        return Ok(());
    }
    let Some(text) = pool.utf8(index) else {
        return Ok(());
    };
    add_name(alloc, texts, text.as_slice())?;
    mark(added, index);
    Ok(())
}

/// Adds the texts of a pool's String entries, in order. Takes time for each entry, and once for the
/// bytes of each text that one names.
fn add_strings(alloc: Global, texts: &mut Texts, pool: &Pool) -> Result<(), AllocError>
    ensures { OnOk result (texts.new ≡ with_texts texts.old (strings_of pool.now)) }
{
    let mut added = no_marks(alloc, pool)?;
    for index in 0..pool.len() {
        if let Some(text) = text_index(pool, index) {
            add_text(alloc, texts, &mut added, pool, text)?;
        }
    }
    Ok(())
}

/// The texts of the distinct string literals of files, in order.
pub(crate) fn literal_texts(alloc: Global, files: &[ClassFile]) -> Result<Texts, AllocError>
    ensures { IfOk result (λ texts. texts ≡ texts_of files.now) }
{
    let mut texts = Texts::new(alloc);
    for file in files {
        add_strings(alloc, &mut texts, &file.pool)?;
    }
    Ok(texts)
}

/// The index after a literal of so many chars that begins at an index, where both have one.
fn index_after(index: Option<u32>, chars: usize) -> Option<u32>
    ensures { (n : ℕ) → index ≡ index_or_none n → result ≡ index_or_none (n + (3 + chars)) }
{
    let start = index?;
    if chars > u32::MAX as usize {
        return None;
    }
    let end = u64::from(start) + 3 + chars as u64;
    if end > u64::from(u32::MAX) {
        return None;
    }
    Some(end as u32)
}

/// The index of the word of volatile memory with which each literal begins, where it has one.
pub(crate) fn literal_indices(alloc: Global, texts: &Texts) -> Result<Vec<Option<u32>>, AllocError>
    ensures { IfOk result (λ indices. indices.items ≡ indices_from 6 texts.now) }
{
    let mut indices = Vec::new(alloc);
    let mut index = Some(6);
    for text in texts.as_slice() {
        indices.push(index)?;
        index = index_after(index, char_count(text.as_slice()));
    }
    Ok(indices)
}

/// The text of the String entry at an index, `None` exactly where there is none.
pub(crate) fn string_at(pool: &Pool, index: u32) -> Option<&Name>
    ensures { option_copied result ≡ string_at pool.now index }
{
    if index < u32::from(pool.len()) {
        return pool.string(index as u16);
    }
    None
}
