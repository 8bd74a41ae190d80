// Entries are read from the directory's words: first what the words would spell, and then whether they do.
ghost use Rattle.std.specs.Prelude.{◌≡◌, ◌<◌, ◌≤◌, ◌+◌, ◌++◌, ◌%◌, ◌/◌, ◌^◌, length, drop, min, IfOk, OnOk, IsSome, IsNone};
ghost use Rattle.std.specs.Prelude.{IfSome};
ghost use Rattle.const_pool.specs.Utf8.{IsModifiedUtf8};
ghost use Rattle.image_layout.specs.Places.{directory_words};
ghost use Rattle.image_meaning.specs.Entries.{words_for, bytes_of_word, name_from, fields_from, entry_from, kind_of_letter};
ghost use Rattle.image_meaning.specs.Entries.{element_of, shape_named, body_from, is_shape, is_descriptor, is_entry};
ghost use Rattle.image_meaning.specs.Entries.{read_entry};
ghost use Rattle.directories.specs.Read.{entry_of, field_at, after_field, IsRead};

use crate::spelling::{entry_length, spell};
use ap_base::{Bytes, Kind, ListOf};
use const_pool::{DescriptorRefusal, Name, read_descriptor};
use graph_model::{Field, Shape};
use std::alloc::{AllocError, Global};

/// An entry of the directory.
#[derive(Drop)]
pub enum Entry {
    Shape(Shape),
    Root(Bytes),
}

impl Entry {
    /// A copy of the entry.
    pub(crate) fn copy(&self, alloc: Global) -> Result<Entry, AllocError>
        ensures { IfOk result (λ entry. entry ≡ self.now) }
    {
        match self {
            Entry::Shape(shape) => Ok(Entry::Shape(shape.copy(alloc)?)),
            Entry::Root(name) => Ok(Entry::Root(Bytes::copy(alloc, name.as_slice())?)),
        }
    }
}

/// The entry that the words begin with, and how many of them spell it. `None` exactly where no entry does.
pub(crate) fn next_entry(alloc: Global, words: &[u64]) -> Result<Option<(Entry, usize)>, AllocError>
    requires some { 0 < length words.now }
    requires few { length words.now ≤ directory_words }
    ensures { IfOk result (λ found. IsRead words.now found (read_entry words.now)) }
{
    let entry = read(alloc, words)?;
    let count = entry_length(&entry);
    if count > words.len() as u64 {
        return Ok(None);
    }
    let spelling = spell(alloc, &entry)?;
    if !words.starts_with(spelling.as_slice()) {
        return Ok(None);
    }
    if !may_stand(alloc, &entry)? {
        return Ok(None);
    }
    Ok(Some((entry, count as usize)))
}

/// What the words would spell.
fn read(alloc: Global, words: &[u64]) -> Result<Entry, AllocError>
    requires some { 0 < length words.now }
    ensures { IfOk result (λ entry. entry_of entry ≡ entry_from words.now) }
{
    let kind = words[0] % (1 << 32);
    if words.len() == 1 {
        return Ok(Entry::Root(Bytes::from_vec(Vec::new(alloc))));
    }
    if kind != 1 {
        return Ok(Entry::Root(read_name(alloc, &words[2..], words[1])?));
    }
    Ok(Entry::Shape(read_shape(alloc, &words[2..], words[1])?))
}

/// The shape whose second word is this one, and whose others follow.
fn read_shape(alloc: Global, words: &[u64], head: u64) -> Result<Shape, AllocError>
    ensures { IfOk result (λ shape. shape ≡ shape_named (name_from (head % 2 ^ 32) words.now)
        (fields_from (head / 2 ^ 32) (drop (words_for (head % 2 ^ 32)) words.now))) }
{
    let len = head % (1 << 32);
    let name = read_name(alloc, words, len)?;
    let fields = read_fields(alloc, behind_name(words, len), head / (1 << 32))?;
    let element = element_kind(name.as_slice());
    Ok(Shape {
        name,
        fields: ListOf::from_vec(fields),
        element,
    })
}

/// The words behind a name of so many bytes.
fn behind_name(words: &[u64], len: u64) -> &[u64]
    ensures { result.now ≡ drop (words_for len) words.now }
{
    let count = words_for(len);
    if count >= words.len() as u64 {
        return &words[words.len()..];
    }
    &words[count as usize..]
}

/// How many words a name of so many bytes takes.
pub(crate) fn words_for(len: u64) -> u64
    ensures { result ≡ words_for len }
{
    if len % 8 == 0 { len / 8 } else { len / 8 + 1 }
}

/// So many fields, if there are words for them.
fn read_fields(alloc: Global, words: &[u64], count: u64) -> Result<Vec<Field>, AllocError>
    ensures { IfOk result (λ fields. fields.items ≡ fields_from count words.now) }
{
    let mut fields = Vec::new(alloc);
    let mut rest = words;
    let mut left = count;
    while left > 0 && rest.len() > 0 {
        fields.push(read_field(alloc, rest)?)?;
        rest = behind_field(rest);
        left -= 1;
    }
    Ok(fields)
}

/// The field that the words begin with.
fn read_field(alloc: Global, words: &[u64]) -> Result<Field, AllocError>
    requires { 0 < length words.now }
    ensures { IfOk result (λ field. field ≡ field_at words.now) }
{
    Ok(Field {
        name: read_name(alloc, &words[1..], words[0] / (1 << 32))?,
        kind: kind_of(words[0] % (1 << 32)),
        kept: true,
    })
}

/// The words behind that field.
fn behind_field(words: &[u64]) -> &[u64]
    requires { 0 < length words.now }
    ensures { result.now ≡ after_field words.now }
{
    behind_name(&words[1..], words[0] / (1 << 32))
}

/// So many bytes of the words, if there are enough.
fn read_name(alloc: Global, words: &[u64], len: u64) -> Result<Bytes, AllocError>
    ensures { IfOk result (λ name. name ≡ name_from len words.now) }
{
    let mut bytes = Vec::new(alloc);
    let mut left = len;
    for word in words {
        if left == 0 {
            break;
        }
        let count = at_most_eight(left);
        push_bytes(&mut bytes, *word, count)?;
        left -= count;
    }
    Ok(Bytes::from_vec(bytes))
}

fn at_most_eight(left: u64) -> u64
    ensures { result ≡ min left 8 }
{
    if left < 8 { left } else { 8 }
}

/// The lowest bytes of a word.
fn push_bytes(bytes: &mut Vec<u8>, word: u64, count: u64) -> Result<(), AllocError>
    ensures { OnOk result (bytes.new.items ≡ bytes.old.items ++ bytes_of_word count word) }
{
    let mut rest = word;
    for i in 0..count {
        bytes.push((rest % 256) as u8)?;
        rest = rest / 256;
    }
    Ok(())
}

/// The kind of a letter, and of anything else that of references.
fn kind_of(letter: u64) -> Kind
    ensures { result ≡ kind_of_letter letter }
{
    match letter {
        90 => Kind::Z,
        66 => Kind::B,
        67 => Kind::C,
        83 => Kind::S,
        73 => Kind::I,
        74 => Kind::J,
        _ => Kind::L,
    }
}

/// The kind of the elements that objects of this name have, if they have any.
fn element_kind(name: &[u8]) -> Option<Kind>
    ensures { result ≡ element_of name.now }
{
    if name.len() > 0 && name[0] == b'[' {
        if name.len() == 1 {
            return Some(Kind::L);
        }
        return Some(kind_of(u64::from(name[1])));
    }
    if name == STRING {
        return Some(Kind::C);
    }
    None
}

/// The name of the class String.
const STRING: &[u8] = b"java/lang/String";

/// Whether an entry that is spelled is one that the directory can have.
fn may_stand(alloc: Global, entry: &Entry) -> Result<bool, AllocError>
    ensures { IfOk result (λ yes. yes ≡ is_entry (entry_of entry.now)) }
{
    match entry {
        Entry::Root(_) => Ok(true),
        Entry::Shape(shape) => is_shape_form(alloc, shape.name.as_slice(), shape.fields.as_slice()),
    }
}

/// Whether a name and fields are those of a shape.
#[tactic(auto, unfolding(image_meaning::specs::Entries::is_shape))]
fn is_shape_form(alloc: Global, name: &[u8], fields: &[Field]) -> Result<bool, AllocError>
    ensures { IfOk result (λ yes. yes ≡ is_shape name.now fields.now) }
{
    if name.len() > 0 && name[0] == b'[' {
        if fields.len() > 0 {
            return Ok(false);
        }
        return is_descriptor(alloc, name);
    }
    if name == STRING {
        return Ok(fields.len() == 0);
    }
    Ok(true)
}

/// Whether the bytes are a descriptor.
fn is_descriptor(alloc: Global, name: &[u8]) -> Result<bool, AllocError>
    ensures { IfOk result (λ yes. yes ≡ is_descriptor name.now) }
{
    let name = match name_of(alloc, name)? {
        Some(name) => name,
        None => return Ok(false),
    };
    match read_descriptor(alloc, &name) {
        Ok(_) => Ok(true),
        Err(DescriptorRefusal::Bad) => Ok(false),
        Err(DescriptorRefusal::OutOfMemory) => Err(AllocError),
    }
}

/// The name with these bytes, if they are modified UTF-8.
fn name_of(alloc: Global, bytes: &[u8]) -> Result<Option<Name>, AllocError>
    ensures some { IfOk result (λ name. IsSome name → IsModifiedUtf8 bytes.now) }
    ensures none { IfOk result (λ name. IsNone name → IsModifiedUtf8 bytes.now → ⊥) }
    ensures same { IfOk result (λ name. IfSome name (λ n. n ≡ bytes.now)) }
{
    Ok(Name::new(bytes.to_vec(alloc)?))
}
