//! Writing a pool as a class file has it.

ghost use Rattle.std.specs.Prelude.{◌≡◌, ◌++◌, ◌^◌, ◌<◌, length, OnOk, IfOk, All};
ghost use Rattle.std.specs.List.{flat_map};
ghost use Rattle.std.specs.Int.{w32, w64, cast_unsigned};
ghost use Rattle.byteorder.specs.Endian.{big_bytes};
ghost use Rattle.const_pool.specs.Entry.{Fits, member_bytes, body_bytes};
ghost use Rattle.const_pool.specs.Pool.{FitsSlot, slot_bytes, spelling};

use crate::{Entry, Member, Pool};
use parsing::{put_u16, put_u32, put_u64};
use std::alloc::{AllocError, Global};

fn put_member(out: &mut Vec<u8>, member: &Member) -> Result<(), AllocError>
    ensures { OnOk result (out.new.items ≡ out.old.items ++ member_bytes member.now) }
{
    put_u16(out, member.class)?;
    put_u16(out, member.name_and_type)
}

/// Appends what follows the tag of an entry.
fn put_body(out: &mut Vec<u8>, entry: &Entry) -> Result<(), AllocError>
    requires { Fits entry.now }
    ensures { OnOk result (out.new.items ≡ out.old.items ++ body_bytes entry.now) }
{
    match entry {
        Entry::Utf8(name) => {
            let text = name.as_slice();
            put_u16(out, text.len() as u16)?;
            out.extend_from_slice(text)
        }
        Entry::Integer(number) => put_u32(out, number.cast_unsigned()),
        Entry::Float(bits) => put_u32(out, *bits),
        Entry::Long(number) => put_u64(out, number.cast_unsigned()),
        Entry::Double(bits) => put_u64(out, *bits),
        Entry::Class { name } => put_u16(out, *name),
        Entry::String { text } => put_u16(out, *text),
        Entry::Fieldref(member) => put_member(out, member),
        Entry::Methodref(member) => put_member(out, member),
        Entry::InterfaceMethodref(member) => put_member(out, member),
        Entry::NameAndType { name, descriptor } => {
            put_u16(out, *name)?;
            put_u16(out, *descriptor)
        }
        Entry::MethodHandle(bytes) => out.extend_from_slice(bytes),
        Entry::MethodType(bytes) => out.extend_from_slice(bytes),
        Entry::InvokeDynamic(bytes) => out.extend_from_slice(bytes),
    }
}

/// Appends an entry with its tag, and nothing for a slot without one.
fn put_slot(out: &mut Vec<u8>, slot: &Option<Entry>) -> Result<(), AllocError>
    requires { FitsSlot slot.now }
    ensures { OnOk result (out.new.items ≡ out.old.items ++ slot_bytes slot.now) }
{
    match slot {
        Some(entry) => {
            out.push(entry.tag() as u8)?;
            put_body(out, entry)
        }
        None => Ok(()),
    }
}

fn put_slots(out: &mut Vec<u8>, slots: &[Option<Entry>]) -> Result<(), AllocError>
    requires { All FitsSlot slots.now }
    ensures { OnOk result (out.new.items ≡ out.old.items ++ flat_map slot_bytes slots.now) }
{
    for slot in slots {
        put_slot(out, slot)?;
    }
    Ok(())
}

/// Writes a pool as it stands in a class file: its count and its entries.
pub fn write_pool(alloc: Global, pool: &Pool) -> Result<Vec<u8>, AllocError>
    ensures { IfOk result (λ bytes. bytes.items ≡ spelling pool.now) }
{
    let mut out = Vec::new(alloc);
    put_u16(&mut out, pool.len())?;
    put_slots(&mut out, pool.slots())?;
    Ok(out)
}
