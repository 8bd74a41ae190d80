//! What the indices of instructions have to name (JVMS 6.5).

ghost use Rattle.std.specs.Prelude.{◌≡◌};
ghost use Rattle.std.specs.List.{list_any};
ghost use Rattle.std.specs.Option.{option_map};
ghost use Rattle.const_pool.specs.Pool.{entry_at, is_tagged};
ghost use Rattle.class_items.specs.Kinds.{AreKindsOf, kind_at};
ghost use Rattle.code_attribute.specs.Operands.{tags_of, operand_of, descriptor_in, is_field, is_method, unless_right};
ghost use Rattle.code_attribute.specs.Operands.{wrong_descriptor, wrong_operand, first_wrong_operand};

use crate::fault::CodeFault;
use class_items::{DescriptorKind, DescriptorKinds, is_tagged};
use code_form::{Ins, Placed, PoolUse};
use const_pool::{Entry, Member, Pool, Tag};

/// The tags that an entry may have.
fn tags_of(usage: PoolUse) -> &'static [Tag]
    ensures { result.now ≡ tags_of usage }
{
    match usage {
        PoolUse::LoadConstant => &[Tag::Integer, Tag::String],
        PoolUse::LoadLong => &[Tag::Long],
        PoolUse::GetStatic | PoolUse::PutStatic => &[Tag::Fieldref],
        PoolUse::GetField | PoolUse::PutField => &[Tag::Fieldref],
        PoolUse::InvokeVirtual => &[Tag::Methodref],
        PoolUse::InvokeSpecial | PoolUse::InvokeStatic => {
            &[Tag::Methodref, Tag::InterfaceMethodref]
        }
        PoolUse::New | PoolUse::NewReferenceArray => &[Tag::Class],
        PoolUse::CheckCast | PoolUse::InstanceOf => &[Tag::Class],
    }
}

/// The index of an instruction, and the tags that its entry may have.
fn operand_of(ins: &Ins) -> Option<(u16, &'static [Tag])>
    ensures { option_map (λ o. (o.0, o.1.now)) result ≡ operand_of ins.now }
{
    match ins {
        Ins::LoadConstant(index) => Some((u16::from(*index), tags_of(PoolUse::LoadConstant))),
        Ins::Pool(usage, index) => Some((*index, tags_of(*usage))),
        Ins::InvokeInterface { index, .. } => Some((*index, &[Tag::InterfaceMethodref])),
        _ => None,
    }
}

fn has_a_tag(pool: &Pool, index: u16, tags: &[Tag]) -> bool
    ensures { result ≡ list_any (is_tagged (entry_at pool.now index)) tags.now }
{
    tags.iter().any(|tag| is_tagged(pool, index, *tag))
}

/// The index of the descriptor in the NameAndType at an index.
fn descriptor_in(pool: &Pool, index: u16) -> u16
    ensures { result ≡ descriptor_in (entry_at pool.now index) }
{
    match pool.get(index) {
        Some(Entry::NameAndType { descriptor, .. }) => *descriptor,
        _ => 0,
    }
}

fn kind_at(pool: &Pool, kinds: &DescriptorKinds, index: u16) -> DescriptorKind
    requires { AreKindsOf pool.now kinds.now }
    ensures { result ≡ kind_at pool.now index }
{
    kinds.get(index)
}

fn is_field(kind: DescriptorKind) -> bool
    ensures { result ≡ is_field kind }
{
    matches!(kind, DescriptorKind::Field(_))
}

fn is_method(kind: DescriptorKind) -> bool
    ensures { result ≡ is_method kind }
{
    matches!(kind, DescriptorKind::Method)
}

fn unless_right(is_right: bool, descriptor: u16) -> Option<CodeFault>
    ensures { result ≡ unless_right is_right descriptor }
{
    if is_right {
        return None;
    }
    Some(CodeFault::BadDescriptor(descriptor))
}

fn wrong_field(pool: &Pool, kinds: &DescriptorKinds, member: Member) -> Option<CodeFault>
    requires { AreKindsOf pool.now kinds.now }
    ensures { let descriptor = descriptor_in (entry_at pool.now member.name_and_type) in result
        ≡ unless_right (is_field (kind_at pool.now descriptor)) descriptor }
{
    let descriptor = descriptor_in(pool, member.name_and_type);
    unless_right(is_field(kind_at(pool, kinds, descriptor)), descriptor)
}

fn wrong_method(pool: &Pool, kinds: &DescriptorKinds, member: Member) -> Option<CodeFault>
    requires { AreKindsOf pool.now kinds.now }
    ensures { let descriptor = descriptor_in (entry_at pool.now member.name_and_type) in result
        ≡ unless_right (is_method (kind_at pool.now descriptor)) descriptor }
{
    let descriptor = descriptor_in(pool, member.name_and_type);
    unless_right(is_method(kind_at(pool, kinds, descriptor)), descriptor)
}

/// The fault where the entry at an index is a member whose descriptor is none of its kind (JVMS 4.4.2).
fn wrong_descriptor(pool: &Pool, kinds: &DescriptorKinds, index: u16) -> Option<CodeFault>
    requires { AreKindsOf pool.now kinds.now }
    ensures { result ≡ wrong_descriptor pool.now (entry_at pool.now index) }
{
    match pool.get(index) {
        Some(Entry::Fieldref(member)) => wrong_field(pool, kinds, *member),
        Some(Entry::Methodref(member)) => wrong_method(pool, kinds, *member),
        Some(Entry::InterfaceMethodref(member)) => wrong_method(pool, kinds, *member),
        _ => None,
    }
}

fn wrong_operand(pool: &Pool, kinds: &DescriptorKinds, placed: &Placed) -> Option<CodeFault>
    requires { AreKindsOf pool.now kinds.now }
    ensures { result ≡ wrong_operand pool.now placed.now.pc (operand_of placed.now.ins) }
{
    match operand_of(&placed.ins) {
        Some((index, tags)) if has_a_tag(pool, index, tags) => wrong_descriptor(pool, kinds, index),
        Some(_) => Some(CodeFault::BadOperand(placed.pc)),
        None => None,
    }
}

/// The fault of the first instruction that has one.
pub(crate) fn first_wrong_operand(
    pool: &Pool,
    kinds: &DescriptorKinds,
    code: &[Placed],
) -> Option<CodeFault>
    requires { AreKindsOf pool.now kinds.now }
    ensures { result ≡ first_wrong_operand pool.now code.now }
{
    for placed in code {
        if let Some(fault) = wrong_operand(pool, kinds, placed) {
            return Some(fault);
        }
    }
    None
}
