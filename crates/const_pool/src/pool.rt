//! A constant pool (JVMS 4.4).

ghost use Rattle.std.specs.Prelude.{◌≡◌, ℕ, ◌+◌, ◌^◌, ◌<◌, ◌≤◌, ◌++◌, [], ◌∷◌, ◌↔◌, length, vec_len, None, Some, IsTrue};
ghost use Rattle.std.specs.Prelude.{IsSome, IfOk, OnOk, OnErr, IsErrOf};
ghost use Rattle.std.specs.Option.{is_some, option_copied, option_map};
ghost use Rattle.const_pool.specs.declared.entry.Tag.{Tag};
ghost use Rattle.const_pool.specs.Entry.{tag_of, Fits};
ghost use Rattle.const_pool.specs.Pool.{IsPool, Names, Refers, entry_at, is_tagged, slots_of, utf8_at, class_name_at};
ghost use Rattle.const_pool.specs.Pool.{string_at, name_and_type_at, member_at};

use crate::refusal::PushRefusal;
use crate::{Entry, Member, Name, Tag};
use std::alloc::{AllocError, Global};
use std::marker::Model;

/// A constant pool of a class file. Contracts see it as the list of its slots, one for each index from 0 on:
/// an entry, or none where the index is 0 or the second of a Long or Double before. What its entries name
/// is there, so the pool can be written as it is.
#[derive(Drop)]
pub struct Pool {
    slots: Vec<Option<Entry>>,
}

impl Model for Pool {
    ghost use Rattle.const_pool.specs.Pool.{Slots, IsPool};

    ghost Value = { Slots };

    ghost view = { λ p. p.slots.items };

    ghost invariant = { λ p. IsPool p.slots.items };
}

impl Pool {
    /// A pool with no entries.
    pub fn new(alloc: Global) -> Result<Pool, AllocError>
        ensures { IfOk result (λ pool. pool ≡ None ∷ []) }
    {
        let mut slots = Vec::new(alloc);
        slots.push(None)?;
        Ok(Pool { slots })
    }

    /// The pool of slots that are known to make one.
    pub(crate) fn from_slots(slots: Vec<Option<Entry>>) -> Pool
        requires { IsPool slots.items }
        ensures { result ≡ slots.items }
    {
        Pool { slots }
    }

    /// All slots, from index 0 on.
    pub(crate) fn slots(&self) -> &[Option<Entry>]
        ensures slots { result.now ≡ self.now }
        ensures pool { IsPool self.now }
    {
        self.slots.as_slice()
    }

    /// How many slots there are, which a class file has as `constant_pool_count`: one more than the last
    /// index.
    pub fn len(&self) -> u16
        ensures len { result ≡ length self.now }
        ensures pool { IsPool self.now }
    {
        self.slots.len() as u16
    }

    /// The entry at an index, `None` exactly where there is none.
    pub fn get(&self, index: u16) -> Option<&Entry>
        ensures { option_copied result ≡ entry_at self.now index }
    {
        entry_in(self.slots(), index)
    }

    /// The kind of the entry at an index, `None` exactly where there is none.
    pub fn tag(&self, index: u16) -> Option<Tag>
        ensures { result ≡ option_map tag_of (entry_at self.now index) }
    {
        tag_in(self.slots(), index)
    }

    /// The text at an index, `None` exactly where it is no Utf8 entry's.
    pub fn utf8(&self, index: u16) -> Option<&Name>
        ensures { option_copied result ≡ utf8_at self.now index }
    {
        utf8_in(self.slots(), index)
    }

    /// The name of the class at an index, `None` exactly where it is no Class entry's.
    pub fn class_name(&self, index: u16) -> Option<&Name>
        ensures value { option_copied result ≡ class_name_at self.now index }
        ensures found { IsSome result ↔ IsTrue (is_tagged (entry_at self.now index) Tag.Class) }
    {
        class_name_in(self.slots(), index)
    }

    /// The text of the string at an index, `None` exactly where it is no String entry's.
    pub fn string(&self, index: u16) -> Option<&Name>
        ensures value { option_copied result ≡ string_at self.now index }
        ensures found { IsSome result ↔ IsTrue (is_tagged (entry_at self.now index) Tag.String) }
    {
        string_in(self.slots(), index)
    }

    /// The name and the descriptor at an index, `None` exactly where it is no NameAndType entry's.
    pub fn name_and_type(&self, index: u16) -> Option<(&Name, &Name)>
        ensures value { option_map (λ pair. (pair.0.now, pair.1.now)) result
            ≡ name_and_type_at self.now index }
        ensures found { IsSome result
            ↔ IsTrue (is_tagged (entry_at self.now index) Tag.NameAndType) }
    {
        name_and_type_in(self.slots(), index)
    }

    /// The member at an index, `None` exactly where it is no Fieldref, Methodref or InterfaceMethodref entry's.
    pub fn member(&self, index: u16) -> Option<Member>
        ensures { result ≡ member_at self.now index }
    {
        member_in(self.slots(), index)
    }

    /// Adds an entry at the end, and gives its index. It is refused exactly where the pool would have more
    /// than 65,535 slots, or for want of memory, and the pool is then as before.
    pub fn push(&mut self, entry: Entry) -> Result<u16, PushRefusal>
        requires fits { Fits entry }
        requires named { Refers self.old (Some entry) }
        ensures index { IfOk result (λ index. index ≡ length self.old) }
        ensures ok { OnOk result (self.new ≡ self.old ++ slots_of entry) }
        ensures there { IfOk result (λ index. entry_at self.new index ≡ Some entry) }
        ensures kept { (index : ℕ) (tag : Tag) → Names self.old (index, tag)
            → Names self.new (index, tag) }
        ensures full { IsErrOf result PushRefusal.Full
            ↔ (2 ^ 16 ≤ length self.old + length (slots_of entry)) }
        ensures err { OnErr result (self.new ≡ self.old) }
    {
        let index = self.slots.len();
        if index + slot_count(&entry) > usize::from(u16::MAX) {
            return Err(PushRefusal::Full);
        }
        push_entry(&mut self.slots, entry)?;
        Ok(index as u16)
    }
}

/// The entry at an index.
pub(crate) fn entry_in(slots: &[Option<Entry>], index: u16) -> Option<&Entry>
    ensures { option_copied result ≡ entry_at slots.now index }
{
    match slots.get(usize::from(index)) {
        Some(Some(entry)) => Some(entry),
        _ => None,
    }
}

fn tag_in(slots: &[Option<Entry>], index: u16) -> Option<Tag>
    ensures { result ≡ option_map tag_of (entry_at slots.now index) }
{
    match entry_in(slots, index) {
        Some(entry) => Some(entry.tag()),
        None => None,
    }
}

fn utf8_in(slots: &[Option<Entry>], index: u16) -> Option<&Name>
    ensures { option_copied result ≡ utf8_at slots.now index }
{
    match entry_in(slots, index) {
        Some(Entry::Utf8(name)) => Some(name),
        _ => None,
    }
}

fn class_name_in(slots: &[Option<Entry>], index: u16) -> Option<&Name>
    ensures value { option_copied result ≡ class_name_at slots.now index }
    ensures variant { is_some result ≡ is_some (class_name_at slots.now index) }
{
    match entry_in(slots, index) {
        Some(Entry::Class { name }) => utf8_in(slots, *name),
        _ => None,
    }
}

fn string_in(slots: &[Option<Entry>], index: u16) -> Option<&Name>
    ensures value { option_copied result ≡ string_at slots.now index }
    ensures variant { is_some result ≡ is_some (string_at slots.now index) }
{
    match entry_in(slots, index) {
        Some(Entry::String { text }) => utf8_in(slots, *text),
        _ => None,
    }
}

fn name_and_type_in(slots: &[Option<Entry>], index: u16) -> Option<(&Name, &Name)>
    ensures value { option_map (λ pair. (pair.0.now, pair.1.now)) result
        ≡ name_and_type_at slots.now index }
    ensures variant { is_some result ≡ is_some (name_and_type_at slots.now index) }
{
    match entry_in(slots, index) {
        Some(Entry::NameAndType { name, descriptor }) => {
            let name = utf8_in(slots, *name)?;
            let descriptor = utf8_in(slots, *descriptor)?;
            Some((name, descriptor))
        }
        _ => None,
    }
}

fn member_in(slots: &[Option<Entry>], index: u16) -> Option<Member>
    ensures { result ≡ member_at slots.now index }
{
    match entry_in(slots, index) {
        Some(Entry::Fieldref(member)) => Some(*member),
        Some(Entry::Methodref(member)) => Some(*member),
        Some(Entry::InterfaceMethodref(member)) => Some(*member),
        _ => None,
    }
}

/// How many slots an entry takes (JVMS 4.4.5).
fn slot_count(entry: &Entry) -> usize
    ensures { result ≡ length (slots_of entry.now) }
{
    if entry.tag().is_wide() { 2 } else { 1 }
}

/// Adds an entry, in as many slots as it takes. An `Err` leaves the slots as they were.
pub(crate) fn push_entry(slots: &mut Vec<Option<Entry>>, entry: Entry) -> Result<(), AllocError>
    ensures items { OnOk result (slots.new.items ≡ slots.old.items ++ slots_of entry) }
    ensures grows { OnOk result (vec_len slots.old < vec_len slots.new) }
    ensures err { OnErr result (slots.new.items ≡ slots.old.items) }
{
    slots.reserve(2)?;
    let is_wide = entry.tag().is_wide();
    slots.push(Some(entry))?;
    if is_wide {
        slots.push(None)?;
    }
    Ok(())
}
