//! A constant pool under construction (JVMS 4.4).

ghost use Rattle.std.specs.Prelude.{◌≡◌, ◌+◌, ◌≤◌, ◌++◌, [], ◌∷◌, OnOk, IfErr};
ghost use Rattle.listing_lines.specs.Reading.{Gives};
ghost use Rattle.listing.specs.Pool.{width, free_index, index_from, with_entry, with_utf8, with_text, with_pair};
ghost use Rattle.listing.specs.Pool.{with_name_and_type, member_tag, with_member, with_wanted};

use ap_base::Bytes;
use listing_lines::{LineRefusal, ListingFault, MemberKind, MemberName, Wanted};
use parsing::{put_u16, put_u32, put_u64};
use std::alloc::Global;
use std::collections::HashMap;
use std::marker::Model;

/// The entries of a constant pool, in order of first need, each by its bytes.
#[derive(Drop)]
pub(crate) struct Entries {
    items: Vec<Bytes>,
    /// The index of each.
    indices: HashMap<Vec<u8>, u16>,
    /// The index of the next entry.
    free: u16,
}

impl Model for Entries {
    ghost use Rattle.std.specs.Prelude.{◌≡◌, ℕ, List};
    ghost use Rattle.listing.specs.Pool.{free_index};
    ghost use Rattle.listing.specs.Indices.{AreIndices};

    ghost Value = { List (List ℕ) };

    ghost view = { λ e. e.items.items };

    ghost invariant = { λ e. (e.free ≡ free_index e.items.items)
        × AreIndices e.items.items e.indices };
}

/// How many indices an entry takes.
fn width(entry: &[u8]) -> u16
    ensures width { result ≡ width entry.now }
    ensures small { result ≤ 2 }
{
    match entry {
        [5, ..] => 2,
        _ => 1,
    }
}

impl Entries {
    /// No entries.
    #[tactic(auto, using(crate::proofs::NewIndices::no_indices))]
    pub(crate) fn new(alloc: Global) -> Entries
        ensures { result ≡ [] }
    {
        Entries {
            items: Vec::new(alloc),
            indices: HashMap::new(alloc),
            free: 1,
        }
    }

    /// How many indices there are, with index 0.
    pub(crate) fn count(&self) -> u16
        ensures { result ≡ free_index self.now }
    {
        self.free
    }

    /// The entries' bytes, in order.
    pub(crate) fn as_slice(&self) -> &[Bytes]
        ensures { result.now ≡ self.now }
    {
        self.items.as_slice()
    }

    /// The index of an entry that is there.
    fn index_of(&self, entry: &[u8]) -> Option<u16>
        ensures { result ≡ index_from 1 self.now entry.now }
    {
        self.indices.get(entry).copied()
    }

    /// Adds an entry that isn't there.
    fn add(&mut self, alloc: Global, entry: Vec<u8>) -> Result<(), LineRefusal>
        requires new { index_from 1 self.old entry.items ≡ None }
        requires room { free_index self.old + width entry.items ≤ 65535 }
        ensures added { OnOk result (self.new ≡ self.old ++ entry.items ∷ []) }
        ensures memory { IfErr result (λ e. e ≡ LineRefusal.OutOfMemory) }
    {
        let width = width(entry.as_slice());
        let copy = Bytes::copy(alloc, entry.as_slice())?;
        self.items.push(copy)?;
        match self.indices.insert(entry, self.free) {
            Ok(_) => {
                self.free += width;
                Ok(())
            }
            Err(_) => {
                self.items.pop();
                Err(LineRefusal::OutOfMemory)
            }
        }
    }

    /// The index of an entry, which is added unless there is an equal one. `TooLarge` where it has no index.
    #[tactic(auto, unfolding(crate::specs::Pool::with_entry))]
    fn entry(&mut self, alloc: Global, entry: Vec<u8>) -> Result<u16, LineRefusal>
        ensures { Gives (λ index. (index, self.new)) result (with_entry entry.items self.old) }
    {
        if let Some(index) = self.index_of(entry.as_slice()) {
            return Ok(index);
        }
        if width(entry.as_slice()) > 65_535 - self.free {
            return Err(LineRefusal::Fault(ListingFault::TooLarge));
        }
        let index = self.free;
        self.add(alloc, entry)?;
        Ok(index)
    }

    /// The index of a text.
    #[tactic(auto, unfolding(crate::specs::Pool::with_utf8))]
    pub(crate) fn utf8(&mut self, alloc: Global, text: &[u8]) -> Result<u16, LineRefusal>
        ensures { Gives (λ index. (index, self.new)) result (with_utf8 text.now self.old) }
    {
        if text.len() > 65_535 {
            return Err(LineRefusal::Fault(ListingFault::TooLarge));
        }
        let mut entry = Vec::new(alloc);
        entry.push(1)?;
        put_u16(&mut entry, text.len() as u16)?;
        entry.extend_from_slice(text)?;
        self.entry(alloc, entry)
    }

    /// The index of an entry of this tag that is a text, as a Class or a String.
    #[tactic(auto, unfolding(crate::specs::Pool::with_text))]
    pub(crate) fn text(&mut self, alloc: Global, tag: u8, text: &[u8]) -> Result<u16, LineRefusal>
        ensures { Gives (λ index. (index, self.new)) result (with_text tag text.now self.old) }
    {
        let utf8 = self.utf8(alloc, text)?;
        let mut entry = Vec::new(alloc);
        entry.push(tag)?;
        put_u16(&mut entry, utf8)?;
        self.entry(alloc, entry)
    }

    /// The index of an entry of this tag that has two indices.
    #[tactic(auto, unfolding(crate::specs::Pool::with_pair))]
    fn pair(&mut self, alloc: Global, tag: u8, first: u16, second: u16) -> Result<u16, LineRefusal>
        ensures { Gives (λ index. (index, self.new)) result (with_pair tag first second self.old) }
    {
        let mut entry = Vec::new(alloc);
        entry.push(tag)?;
        put_u16(&mut entry, first)?;
        put_u16(&mut entry, second)?;
        self.entry(alloc, entry)
    }

    #[tactic(auto, unfolding(crate::specs::Pool::with_name_and_type))]
    fn name_and_type(
        &mut self,
        alloc: Global,
        name: &[u8],
        descriptor: &[u8],
    ) -> Result<u16, LineRefusal>
        ensures { Gives (λ index. (index, self.new)) result
            (with_name_and_type name.now descriptor.now self.old) }
    {
        let name = self.utf8(alloc, name)?;
        let descriptor = self.utf8(alloc, descriptor)?;
        self.pair(alloc, 12, name, descriptor)
    }

    #[tactic(auto, unfolding(crate::specs::Pool::with_member))]
    pub(crate) fn member(&mut self, alloc: Global, member: &MemberName) -> Result<u16, LineRefusal>
        ensures { Gives (λ index. (index, self.new)) result (with_member member.now self.old) }
    {
        let class = self.text(alloc, 7, member.class.as_slice())?;
        let name = self.name_and_type(alloc, member.name.as_slice(), member.descriptor.as_slice())?;
        self.pair(alloc, member_tag(member.kind), class, name)
    }

    fn integer(&mut self, alloc: Global, number: i32) -> Result<u16, LineRefusal>
        ensures { Gives (λ index. (index, self.new)) result
            (with_wanted (Wanted.Integer number) self.old) }
    {
        let mut entry = Vec::new(alloc);
        entry.push(3)?;
        put_u32(&mut entry, number.cast_unsigned())?;
        self.entry(alloc, entry)
    }

    fn long(&mut self, alloc: Global, number: i64) -> Result<u16, LineRefusal>
        ensures { Gives (λ index. (index, self.new)) result
            (with_wanted (Wanted.Long number) self.old) }
    {
        let mut entry = Vec::new(alloc);
        entry.push(5)?;
        put_u64(&mut entry, number.cast_unsigned())?;
        self.entry(alloc, entry)
    }

    /// The index of an entry that an instruction names.
    pub(crate) fn wanted(&mut self, alloc: Global, wanted: &Wanted) -> Result<u16, LineRefusal>
        ensures { Gives (λ index. (index, self.new)) result (with_wanted wanted.now self.old) }
    {
        match wanted {
            Wanted::Integer(number) => self.integer(alloc, *number),
            Wanted::Long(number) => self.long(alloc, *number),
            Wanted::Text(text) => self.text(alloc, 8, text.as_slice()),
            Wanted::Class(name) => self.text(alloc, 7, name.as_slice()),
            Wanted::Member(member) => self.member(alloc, member),
        }
    }
}

/// The tag of a member's entry (JVMS table 4.4-A).
fn member_tag(kind: MemberKind) -> u8
    ensures { result ≡ member_tag kind }
{
    match kind {
        MemberKind::Field => 9,
        MemberKind::Method => 10,
        MemberKind::InterfaceMethod => 11,
    }
}
