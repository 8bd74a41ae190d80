//! Reading a pool from a file's bytes.

ghost use Rattle.std.specs.Prelude.{◌≡◌, ℕ, ◌+◌, ◌^◌, ◌<◌, List, [], ◌∷◌, ◌++◌, length, drop, vec_len, IfOk, Ok};
ghost use Rattle.const_pool.specs.Reading.{Gives, name_from, member_from, body_from, tag_from, entry_from, counted_slots};
ghost use Rattle.const_pool.specs.Reading.{first_wrong, wrong_from, pool_in};
ghost use Rattle.const_pool.specs.Entry.{references, member_references};
ghost use Rattle.const_pool.specs.Pool.{Slots, IsPool, spelling, entry_at, is_tagged, references_in};

use crate::name::first_bad;
use crate::pool::{entry_in, push_entry};
use crate::{Entry, Member, Name, Pool, PoolRefusal, Tag};
use parsing::Reader;
use std::alloc::Global;

/// A length of 16 bits, and a text of that many bytes.
#[tactic(auto, unfolding(crate::specs::Reading::name_from))]
fn name(alloc: Global, file: &mut Reader) -> Result<Name, PoolRefusal>
    ensures { Gives (λ x. (x, file.new)) result (name_from file.old) }
{
    let len = file.u16()?;
    let at = file.at();
    let text = file.field(usize::from(len))?;
    if let Some(place) = first_bad(text) {
        return Err(PoolRefusal::BadUtf8(at + place));
    }
    Ok(Name::copy(alloc, text)?)
}

#[tactic(auto, unfolding(crate::specs::Reading::member_from))]
fn member(file: &mut Reader) -> Result<Member, PoolRefusal>
    ensures { Gives (λ x. (x, file.new)) result (member_from file.old) }
{
    let class = file.u16()?;
    let name_and_type = file.u16()?;
    Ok(Member {
        class,
        name_and_type,
    })
}

/// What follows the tag of an entry.
#[tactic(auto, unfolding(crate::specs::Reading::body_from))]
fn body(alloc: Global, tag: Tag, file: &mut Reader) -> Result<Entry, PoolRefusal>
    ensures { Gives (λ x. (x, file.new)) result (body_from tag file.old) }
{
    match tag {
        Tag::Utf8 => Ok(Entry::Utf8(name(alloc, file)?)),
        Tag::Integer => Ok(Entry::Integer(file.u32()?.cast_signed())),
        Tag::Float => Ok(Entry::Float(file.u32()?)),
        Tag::Long => Ok(Entry::Long(file.u64()?.cast_signed())),
        Tag::Double => Ok(Entry::Double(file.u64()?)),
        Tag::Class => Ok(Entry::Class { name: file.u16()? }),
        Tag::String => Ok(Entry::String { text: file.u16()? }),
        Tag::Fieldref => Ok(Entry::Fieldref(member(file)?)),
        Tag::Methodref => Ok(Entry::Methodref(member(file)?)),
        Tag::InterfaceMethodref => Ok(Entry::InterfaceMethodref(member(file)?)),
        Tag::NameAndType => {
            let name = file.u16()?;
            let descriptor = file.u16()?;
            Ok(Entry::NameAndType { name, descriptor })
        }
        Tag::MethodHandle => {
            let bytes = file.field(3)?;
            Ok(Entry::MethodHandle([bytes[0], bytes[1], bytes[2]]))
        }
        Tag::MethodType => {
            let bytes = file.field(2)?;
            Ok(Entry::MethodType([bytes[0], bytes[1]]))
        }
        Tag::InvokeDynamic => {
            let bytes = file.field(4)?;
            Ok(Entry::InvokeDynamic([bytes[0], bytes[1], bytes[2], bytes[3]]))
        }
    }
}

/// A tag. The second index of a Long or Double is judged here, before the bytes that follow: nothing that
/// could follow would make the entry one of a pool with this count.
#[tactic(auto, unfolding(crate::specs::Reading::tag_from))]
fn tag(index: u16, count: u16, file: &mut Reader) -> Result<Tag, PoolRefusal>
    requires { index < count }
    ensures { Gives (λ x. (x, file.new)) result (tag_from index count file.old) }
{
    let at = file.at();
    let byte = file.u8()?;
    let Some(tag) = Tag::with_byte(byte) else {
        return Err(PoolRefusal::BadTag(at));
    };
    if tag.is_wide() && index + 1 == count {
        return Err(PoolRefusal::BadIndex {
            entry: index,
            index: index + 1,
        });
    }
    Ok(tag)
}

#[tactic(auto, unfolding(crate::specs::Reading::entry_from))]
fn entry(alloc: Global, index: u16, count: u16, file: &mut Reader) -> Result<Entry, PoolRefusal>
    requires { index < count }
    ensures { Gives (λ x. (x, file.new)) result (entry_from index count file.old) }
{
    let tag = tag(index, count, file)?;
    body(alloc, tag, file)
}

/// The slots of a pool with this count, which is not 0.
fn slots(alloc: Global, count: u16, file: &mut Reader) -> Result<Vec<Option<Entry>>, PoolRefusal>
    requires { 0 < count }
    ensures count { IfOk result (λ slots. vec_len slots ≡ count) }
    ensures read { Gives (λ slots. (slots.items, file.new)) result (counted_slots count file.old) }
{
    let mut slots = Vec::new(alloc);
    slots.push(None)?;
    'entries: while slots.len() < usize::from(count) {
        let entry = entry(alloc, slots.len() as u16, count, file)?;
        push_entry(&mut slots, entry)?;
    }
    Ok(slots)
}

fn is_tagged_as(slots: &[Option<Entry>], index: u16, tag: Tag) -> bool
    ensures { result ≡ is_tagged (entry_at slots.now index) tag }
{
    match entry_in(slots, index) {
        Some(entry) => entry.tag() as u8 == tag as u8,
        None => false,
    }
}

/// The index, where it names no entry of this kind.
fn wrong_index(slots: &[Option<Entry>], index: u16, tag: Tag) -> Option<u16>
    ensures { result ≡ first_wrong slots.now ((index, tag) ∷ []) }
{
    if is_tagged_as(slots, index, tag) {
        None
    } else {
        Some(index)
    }
}

/// The first index in an entry that names no entry of its kind.
fn wrong_reference(slots: &[Option<Entry>], entry: &Entry) -> Option<u16>
    ensures { result ≡ first_wrong slots.now (references entry.now) }
{
    match entry {
        Entry::Class { name } => wrong_index(slots, *name, Tag::Utf8),
        Entry::String { text } => wrong_index(slots, *text, Tag::Utf8),
        Entry::Fieldref(member) => wrong_member(slots, member),
        Entry::Methodref(member) => wrong_member(slots, member),
        Entry::InterfaceMethodref(member) => wrong_member(slots, member),
        Entry::NameAndType { name, descriptor } => {
            wrong_index(slots, *name, Tag::Utf8).or(wrong_index(slots, *descriptor, Tag::Utf8))
        }
        _ => None,
    }
}

fn wrong_member(slots: &[Option<Entry>], member: &Member) -> Option<u16>
    ensures { result ≡ first_wrong slots.now (member_references member.now) }
{
    wrong_index(slots, member.class, Tag::Class).or(wrong_index(
        slots,
        member.name_and_type,
        Tag::NameAndType,
    ))
}

/// The first index in a slot that names no entry of its kind.
fn wrong_in_slot(slots: &[Option<Entry>], slot: &Option<Entry>) -> Option<u16>
    ensures { result ≡ first_wrong slots.now (references_in slot.now) }
{
    match slot {
        Some(entry) => wrong_reference(slots, entry),
        None => None,
    }
}

/// The first entry with such an index, and that index.
fn first_wrong_reference(slots: &[Option<Entry>]) -> Option<(u16, u16)>
    requires { length slots.now < 2 ^ 16 }
    ensures { result ≡ wrong_from slots.now 0 slots.now }
{
    for (index, slot) in slots.iter().enumerate() {
        match wrong_in_slot(slots, slot) {
            Some(wrong) => return Some((index as u16, wrong)),
            None => {}
        }
    }
    None
}

#[tactic(auto, unfolding(crate::specs::Reading::counted_slots))]
fn counted(alloc: Global, count: u16, file: &mut Reader) -> Result<Vec<Option<Entry>>, PoolRefusal>
    ensures count { IfOk result (λ slots. vec_len slots ≡ count) }
    ensures read { Gives (λ slots. (slots.items, file.new)) result (counted_slots count file.old) }
{
    if count == 0 {
        return Err(PoolRefusal::BadIndex { entry: 0, index: 0 });
    }
    slots(alloc, count, file)
}

/// The slots of a file's pool, and the offset after it.
#[tactic(auto, unfolding(crate::specs::Reading::pool_in))]
fn pool_slots(alloc: Global, bytes: &[u8]) -> Result<(Vec<Option<Entry>>, usize), PoolRefusal>
    ensures { Gives (λ x. (x.0.items, x.1)) result (pool_in bytes.now) }
{
    let mut file = Reader::new(8, bytes.get(8..).unwrap_or(&[]));
    let count = file.u16()?;
    let slots = counted(alloc, count, &mut file)?;
    if let Some((entry, index)) = first_wrong_reference(&slots) {
        return Err(PoolRefusal::BadIndex { entry, index });
    }
    Ok((slots, file.at()))
}

fn pool(alloc: Global, bytes: &[u8]) -> Result<(Pool, usize), PoolRefusal>
    ensures { Gives (λ x. x) result (pool_in bytes.now) }
{
    let (slots, after) = pool_slots(alloc, bytes)?;
    Ok((Pool::from_slots(slots), after))
}

/// Reads the constant pool of a class file, given the whole file: the count at byte 8, and then the entries.
/// The answer is the pool and the offset after it.
///
/// The first fault is the answer, from front to back. A Long or Double whose second index passes the count
/// is refused at its tag. Indices that entries name are judged after the last entry, entry by entry and
/// field by field.
pub fn read_pool(alloc: Global, bytes: &[u8]) -> Result<(Pool, usize), PoolRefusal>
    // What is read is spelled from byte 8 on, up to the offset.
    ensures pool { IfOk result (λ x. IsPool x.0) }
    ensures found { IfOk result (λ x. drop 8 bytes.now ≡ spelling x.0 ++ drop x.1 bytes.now) }
    ensures offset { IfOk result (λ x. x.1 ≡ 8 + length (spelling x.0)) }
    // What is spelled there is read, unless memory runs out.
    ensures only { (pool : Slots) (rest : List ℕ) → IsPool pool
        → drop 8 bytes.now ≡ spelling pool ++ rest
        → Gives (λ x. x) result (Ok (pool, 8 + length (spelling pool))) }
    // Which fault it is.
    ensures exact { Gives (λ x. x) result (pool_in bytes.now) }
{
    pool(alloc, bytes)
}

/// Each pool is read back from its bytes, whatever stands around them. So no two pools have the same bytes.
pub fn each_pool_is_read_back()
    ensures { (pool : Slots) (head rest : List ℕ) → IsPool pool → length head ≡ 8
        → pool_in (head ++ (spelling pool ++ rest)) ≡ Ok (pool, 8 + length (spelling pool)) }
{}
