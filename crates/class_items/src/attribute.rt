//! Attributes (JVMS 4.7).

ghost use Rattle.std.specs.Prelude.{◌≡◌, ◌+◌, ◌++◌, ◌^◌, ◌<◌, length, IfOk, OnOk, All};
ghost use Rattle.std.specs.List.{flat_map};
ghost use Rattle.parsing.specs.Results.{many_from};
ghost use Rattle.class_items.specs.declared.attribute.Attribute.{Attribute as OneAttribute};
ghost use Rattle.class_items.specs.Items.{Gives, attribute_at, attributes_at, attribute_bytes, attributes_bytes};

use crate::{ItemRefusal, index};
use ap_base::{Bytes, ListOf};
use const_pool::{Pool, Tag};
use parsing::{Reader, put_u16, put_u32};
use std::alloc::{AllocError, Global};

/// An attribute as it stands in the file: the index of its name, and its content.
#[derive(Drop)]
pub struct Attribute {
    pub name: u16,
    pub content: Bytes,
}

/// An attribute in a file: where it begins, and what it has. Its content begins six bytes further on.
#[derive(Clone, Copy)]
pub struct RawAttribute<'a> {
    pub at: usize,
    pub name: u16,
    pub content: &'a [u8],
}

/// An attribute, whose content is not looked into.
#[tactic(auto, unfolding(crate::specs::Items::attribute_at))]
pub fn raw_attribute<'a>(
    pool: &Pool,
    file: &mut Reader<'a>,
) -> Result<RawAttribute<'a>, ItemRefusal>
    ensures start { IfOk result (λ a. a.at ≡ file.old.0) }
    ensures within { IfOk result (λ a. a.at + 6 + length a.content.now < 2 ^ 64) }
    ensures read { Gives (λ a. (record { name = a.name; content = a.content.now }, file.new)) result
        (attribute_at pool.now file.old) }
{
    let at = file.at();
    let name = index(pool, Tag::Utf8, file)?;
    let size = file.u32()?;
    let content = file.field(size as usize)?;
    Ok(RawAttribute { at, name, content })
}

fn copied_attribute(alloc: Global, pool: &Pool, file: &mut Reader) -> Result<Attribute, ItemRefusal>
    ensures { Gives (λ a. (a, file.new)) result (attribute_at pool.now file.old) }
{
    let raw = raw_attribute(pool, file)?;
    Ok(Attribute {
        name: raw.name,
        content: Bytes::copy(alloc, raw.content)?,
    })
}

fn some_attributes(
    alloc: Global,
    pool: &Pool,
    count: u16,
    file: &mut Reader,
) -> Result<Vec<Attribute>, ItemRefusal>
    ensures { Gives (λ v. (v.items, file.new)) result (many_from (attribute_at pool.now) count file.old) }
{
    let mut attributes = Vec::new(alloc);
    for _ in 0..count {
        attributes.push(copied_attribute(alloc, pool, file)?)?;
    }
    Ok(attributes)
}

/// A count, and so many attributes, whose content is not looked into.
#[tactic(auto, unfolding(crate::specs::Items::attributes_at))]
pub fn attributes(
    alloc: Global,
    pool: &Pool,
    file: &mut Reader,
) -> Result<ListOf<Attribute>, ItemRefusal>
    ensures { Gives (λ list. (list, file.new)) result (attributes_at pool.now file.old) }
{
    let count = file.u16()?;
    let attributes = some_attributes(alloc, pool, count, file)?;
    Ok(ListOf::from_vec(attributes))
}

fn put_attribute(out: &mut Vec<u8>, attribute: &Attribute) -> Result<(), AllocError>
    requires { length attribute.now.content < 2 ^ 32 }
    ensures { OnOk result (out.new.items ≡ out.old.items ++ attribute_bytes attribute.now) }
{
    let content = attribute.content.as_slice();
    put_u16(out, attribute.name)?;
    put_u32(out, content.len() as u32)?;
    out.extend_from_slice(content)
}

fn put_all(out: &mut Vec<u8>, attributes: &[Attribute]) -> Result<(), AllocError>
    requires { All (λ (a : OneAttribute). length a.content < 2 ^ 32) attributes.now }
    ensures { OnOk result (out.new.items ≡ out.old.items ++ flat_map attribute_bytes attributes.now) }
{
    for attribute in attributes {
        put_attribute(out, attribute)?;
    }
    Ok(())
}

/// Appends the count of the attributes and each of them.
pub fn put_attributes(out: &mut Vec<u8>, attributes: &ListOf<Attribute>) -> Result<(), AllocError>
    requires count { length attributes.now < 2 ^ 16 }
    requires sizes { All (λ (a : OneAttribute). length a.content < 2 ^ 32) attributes.now }
    ensures { OnOk result (out.new.items ≡ out.old.items ++ attributes_bytes attributes.now) }
{
    put_u16(out, attributes.len() as u16)?;
    put_all(out, attributes.as_slice())
}
