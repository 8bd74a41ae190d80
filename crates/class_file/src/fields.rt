//! Reading fields (JVMS 4.5).

ghost use Rattle.std.specs.Prelude.{◌≡◌, []};
ghost use Rattle.std.specs.List.{list_any};
ghost use Rattle.class_items.specs.Kinds.{AreKindsOf};
ghost use Rattle.class_file.specs.Refusals.{Gives};
ghost use Rattle.class_file.specs.FieldParts.{field_attribute_at, field_head_at, field_behind_at};
ghost use Rattle.class_file.specs.Members.{is_static, has_byte, is_barred, no_facts, field_attributes_from, constant_tag};
ghost use Rattle.class_file.specs.Members.{is_constant, constant_of, is_reference, is_field, is_no_root, judged, field_at};
ghost use Rattle.class_file.specs.Members.{fields_from, fields_at};

use crate::facts::{Fact, Facts, fact_of};
use crate::field::Field;
use crate::refusal::ClassRefusal;
use crate::roots::note_root;
use crate::texts::{is_text, kind_at};
use ap_base::{Bytes, ListOf};
use class_items::{
    Attribute, DescriptorKind, DescriptorKinds, FieldSort, index, is_tagged, raw_attribute,
};
use const_pool::{Pool, Tag};
use parsing::Reader;
use std::alloc::Global;
use std::collections::BTreeSet;

/// What a field begins with.
#[derive(Clone, Copy)]
struct Head {
    access: u16,
    name: u16,
    descriptor: u16,
}

/// Where a field begins: its name and its descriptor are judged.
#[tactic(auto, unfolding(crate::specs::FieldParts::field_head_at))]
fn field_head(pool: &Pool, kinds: &DescriptorKinds, file: &mut Reader) -> Result<Head, ClassRefusal>
    requires { AreKindsOf pool.now kinds.now }
    ensures { Gives (λ head. (head, file.new)) result (field_head_at pool.now file.old) }
{
    let access = file.u16()?;
    let offset = file.at();
    let name = index(pool, Tag::Utf8, file)?;
    if has_barred_byte(pool, name) {
        return Err(ClassRefusal::BadIndex {
            offset,
            index: name,
        });
    }
    let descriptor = index(pool, Tag::Utf8, file)?;
    if !is_field(kind_at(pool, kinds, descriptor)) {
        return Err(ClassRefusal::BadDescriptor(descriptor));
    }
    Ok(Head {
        access,
        name,
        descriptor,
    })
}

#[tactic(auto, unfolding(crate::specs::FieldParts::field_attribute_at))]
fn field_attribute(
    alloc: Global,
    pool: &Pool,
    file: &mut Reader,
) -> Result<(Attribute, Fact), ClassRefusal>
    ensures { Gives (λ x. (x, file.new)) result (field_attribute_at pool.now file.old) }
{
    let raw = raw_attribute(pool, file)?;
    let fact = fact_of(pool, &raw)?;
    let attribute = Attribute {
        name: raw.name,
        content: Bytes::copy(alloc, raw.content)?,
    };
    Ok((attribute, fact))
}

/// So many attributes, and what they say together.
fn field_attributes(
    alloc: Global,
    pool: &Pool,
    count: u16,
    file: &mut Reader,
) -> Result<(Vec<Attribute>, Facts), ClassRefusal>
    ensures { Gives (λ x. ((x.0.items, x.1), file.new)) result
        (field_attributes_from pool.now count no_facts file.old) }
{
    let mut attributes = Vec::new(alloc);
    let mut facts = Facts::none();
    for _ in 0..count {
        let (attribute, fact) = field_attribute(alloc, pool, file)?;
        facts = facts.with(fact);
        attributes.push(attribute)?;
    }
    Ok((attributes, facts))
}

fn is_static(access: u16) -> bool
    ensures { result ≡ is_static access }
{
    access & 0x0008 != 0
}

fn is_barred(b: u8) -> bool
    ensures { result ≡ is_barred b }
{
    matches!(b, b'.' | b';' | b'[' | b'/')
}

fn has_barred(name: &[u8]) -> bool
    ensures { result ≡ list_any is_barred name.now }
{
    for b in name {
        if is_barred(*b) {
            return true;
        }
    }
    false
}

/// Whether the text at an index has a byte that no field's name has (JVMS 4.2.2).
fn has_barred_byte(pool: &Pool, index: u16) -> bool
    ensures { result ≡ has_byte is_barred pool.now index }
{
    match pool.utf8(index) {
        Some(name) => has_barred(name.as_slice()),
        None => false,
    }
}

/// The tag of a constant for a field of this descriptor (JVMS table 4.7.2-A).
fn constant_tag(pool: &Pool, descriptor: u16, kind: DescriptorKind) -> Option<Tag>
    ensures { result ≡ constant_tag pool.now descriptor kind }
{
    match kind {
        DescriptorKind::Field(FieldSort::Int) => Some(Tag::Integer),
        DescriptorKind::Field(FieldSort::Long) => Some(Tag::Long),
        DescriptorKind::Field(FieldSort::Reference) => {
            if is_text(pool, descriptor, b"Ljava/lang/String;") {
                Some(Tag::String)
            } else {
                None
            }
        }
        _ => None,
    }
}

fn is_constant(pool: &Pool, tag: Option<Tag>, index: u16) -> bool
    ensures { result ≡ is_constant pool.now tag index }
{
    match tag {
        Some(tag) => is_tagged(pool, index, tag),
        None => false,
    }
}

/// The constant of a field that is no durable root. That of one that isn't static is passed over (JVMS 4.7.2).
fn constant_of(
    pool: &Pool,
    kinds: &DescriptorKinds,
    head: &Head,
    found: Option<(usize, u16)>,
) -> Result<Option<u16>, ClassRefusal>
    requires { AreKindsOf pool.now kinds.now }
    ensures { result ≡ constant_of pool.now head.now.access head.now.descriptor found }
{
    let Some((offset, index)) = found else {
        return Ok(None);
    };
    if !is_static(head.access) {
        return Ok(None);
    }
    let tag = constant_tag(pool, head.descriptor, kind_at(pool, kinds, head.descriptor));
    if is_constant(pool, tag, index) {
        Ok(Some(index))
    } else {
        Err(ClassRefusal::BadIndex { offset, index })
    }
}

fn is_reference(kind: DescriptorKind) -> bool
    ensures { result ≡ is_reference kind }
{
    matches!(kind, DescriptorKind::Field(FieldSort::Reference))
}

fn is_field(kind: DescriptorKind) -> bool
    ensures { result ≡ is_field kind }
{
    matches!(kind, DescriptorKind::Field(_))
}

/// Whether a field is not of the form of a durable root; its name is judged later.
#[tactic(auto, using(crate::proofs::RootFields::none_among))]
fn is_no_root(pool: &Pool, kinds: &DescriptorKinds, head: &Head) -> bool
    requires { AreKindsOf pool.now kinds.now }
    ensures { result ≡ is_no_root pool.now [] head.now.access head.now.name head.now.descriptor }
{
    !is_static(head.access) || !is_reference(kind_at(pool, kinds, head.descriptor))
}

/// The constant of a field, once all its attributes are known.
fn judged(
    pool: &Pool,
    kinds: &DescriptorKinds,
    field: u16,
    head: &Head,
    facts: &Facts,
) -> Result<Option<u16>, ClassRefusal>
    requires { AreKindsOf pool.now kinds.now }
    ensures { result
        ≡ judged pool.now [] field head.now.access head.now.name head.now.descriptor facts.now }
{
    if !facts.root {
        return constant_of(pool, kinds, head, facts.constant);
    }
    if is_no_root(pool, kinds, head) {
        return Err(ClassRefusal::RootNotReference(field));
    }
    Ok(None)
}

/// What follows a field's head, where no durable root stands before.
#[tactic(auto, unfolding(crate::specs::FieldParts::field_behind_at))]
fn field_behind(
    alloc: Global,
    pool: &Pool,
    kinds: &DescriptorKinds,
    number: u16,
    head: Head,
    file: &mut Reader,
) -> Result<Field, ClassRefusal>
    requires { AreKindsOf pool.now kinds.now }
    ensures { Gives (λ f. (f, file.new)) result (field_behind_at pool.now [] number head file.old) }
{
    let count = file.u16()?;
    let (attributes, facts) = field_attributes(alloc, pool, count, file)?;
    let constant = judged(pool, kinds, number, &head, &facts)?;
    Ok(Field {
        access: head.access,
        name: head.name,
        descriptor: head.descriptor,
        attributes: ListOf::from_vec(attributes),
        constant,
        root: facts.root,
        unrecoverable: facts.unrecoverable,
    })
}

/// A field, of which the number among the fields is given, where no durable root stands before.
#[tactic(auto, using(crate::proofs::FieldHeads::head_ok, crate::proofs::FieldHeads::head_err))]
fn field(
    alloc: Global,
    pool: &Pool,
    kinds: &DescriptorKinds,
    number: u16,
    file: &mut Reader,
) -> Result<Field, ClassRefusal>
    requires { AreKindsOf pool.now kinds.now }
    ensures { Gives (λ f. (f, file.new)) result (field_at pool.now [] number file.old) }
{
    let head = field_head(pool, kinds, file)?;
    field_behind(alloc, pool, kinds, number, head, file)
}

/// So many fields.
fn some_fields(
    alloc: Global,
    pool: &Pool,
    kinds: &DescriptorKinds,
    count: u16,
    file: &mut Reader,
) -> Result<Vec<Field>, ClassRefusal>
    requires { AreKindsOf pool.now kinds.now }
    ensures { Gives (λ v. (v.items, file.new)) result (fields_from pool.now [] 0 count file.old) }
{
    let mut fields = Vec::new(alloc);
    let mut roots = BTreeSet::new(alloc);
    for number in 0..count {
        let field = field(alloc, pool, kinds, number, file)?;
        note_root(pool, &mut roots, number, &field)?;
        fields.push(field)?;
    }
    Ok(fields)
}

/// A count, and so many fields.
#[tactic(auto, unfolding(crate::specs::Members::fields_at))]
pub(crate) fn fields(
    alloc: Global,
    pool: &Pool,
    kinds: &DescriptorKinds,
    file: &mut Reader,
) -> Result<ListOf<Field>, ClassRefusal>
    requires { AreKindsOf pool.now kinds.now }
    ensures { Gives (λ list. (list, file.new)) result (fields_at pool.now file.old) }
{
    let count = file.u16()?;
    let fields = some_fields(alloc, pool, kinds, count, file)?;
    Ok(ListOf::from_vec(fields))
}
