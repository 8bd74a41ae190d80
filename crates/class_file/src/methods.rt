//! Reading methods (JVMS 4.6).

ghost use Rattle.std.specs.Prelude.{◌≡◌, ◌||◌, ◌+◌, ◌^◌, ◌<◌, length};
ghost use Rattle.std.specs.List.{list_any};
ghost use Rattle.class_items.specs.Kinds.{AreKindsOf};
ghost use Rattle.parsing.specs.Results.{placed};
ghost use Rattle.code_attribute.specs.Code.{code_attribute_at};
ghost use Rattle.class_file.specs.Refusals.{Gives, of_code};
ghost use Rattle.class_file.specs.Members.{is_method, has_no_code, code_at, looked_into, method_attribute_at, is_code};
ghost use Rattle.class_file.specs.Members.{method_attributes_from, method_at, methods_from, methods_at};

use crate::method::{Method, MethodAttribute};
use crate::refusal::ClassRefusal;
use crate::texts::{is_text, kind_at};
use ap_base::{Bytes, ListOf};
use class_items::{Attribute, DescriptorKind, DescriptorKinds, RawAttribute, index, raw_attribute};
use code_attribute::{Code, CodeFault, read_code_attribute};
use const_pool::{Pool, Tag};
use parsing::Reader;
use std::alloc::Global;

fn of_code(method: u16, at: usize, fault: CodeFault) -> ClassRefusal
    ensures { result ≡ of_code method at fault }
{
    match fault {
        CodeFault::BadForm => ClassRefusal::BadAttribute(at),
        CodeFault::BadIndex { offset, index } => ClassRefusal::BadIndex { offset, index },
        CodeFault::Code(refusal) => ClassRefusal::Code { method, refusal },
        CodeFault::BadOperand(pc) => ClassRefusal::BadOperand { method, pc },
        CodeFault::BadDescriptor(index) => ClassRefusal::BadDescriptor(index),
        CodeFault::OutOfMemory => ClassRefusal::OutOfMemory,
    }
}

/// What a Code attribute has.
#[tactic(auto, using(crate::proofs::Codes::code_err))]
fn code_content(
    alloc: Global,
    pool: &Pool,
    kinds: &DescriptorKinds,
    method: u16,
    raw: &RawAttribute,
) -> Result<Code, ClassRefusal>
    requires within { raw.now.at + 6 + length raw.now.content.now < 2 ^ 64 }
    requires kinds { AreKindsOf pool.now kinds.now }
    ensures { Gives (λ c. c) result (placed (of_code method raw.now.at)
        (code_attribute_at pool.now (raw.now.at + 6, raw.now.content.now))) }
{
    match read_code_attribute(alloc, pool, kinds, raw.at + 6, raw.content) {
        Ok(code) => Ok(code),
        Err(fault) => Err(of_code(method, raw.at, fault)),
    }
}

/// A Code attribute; `done` says that none may stand here.
#[tactic(auto, unfolding(crate::specs::Members::code_at))]
fn code_at(
    alloc: Global,
    pool: &Pool,
    kinds: &DescriptorKinds,
    method: u16,
    done: bool,
    raw: &RawAttribute,
) -> Result<MethodAttribute, ClassRefusal>
    requires within { raw.now.at + 6 + length raw.now.content.now < 2 ^ 64 }
    requires kinds { AreKindsOf pool.now kinds.now }
    ensures { Gives (λ a. a) result (code_at pool.now method raw.now.at done
        (record { name = raw.now.name; content = raw.now.content.now })) }
{
    if done {
        return Err(ClassRefusal::BadAttribute(raw.at));
    }
    let code = code_content(alloc, pool, kinds, method, raw)?;
    Ok(MethodAttribute::Code {
        name: raw.name,
        code,
    })
}

fn looked_into(
    alloc: Global,
    pool: &Pool,
    kinds: &DescriptorKinds,
    method: u16,
    done: bool,
    raw: &RawAttribute,
) -> Result<MethodAttribute, ClassRefusal>
    requires within { raw.now.at + 6 + length raw.now.content.now < 2 ^ 64 }
    requires kinds { AreKindsOf pool.now kinds.now }
    ensures { Gives (λ a. a) result (looked_into pool.now method raw.now.at done
        (record { name = raw.now.name; content = raw.now.content.now })) }
{
    if is_text(pool, raw.name, b"Code") {
        return code_at(alloc, pool, kinds, method, done, raw);
    }
    Ok(MethodAttribute::Other(Attribute {
        name: raw.name,
        content: Bytes::copy(alloc, raw.content)?,
    }))
}

#[tactic(auto, unfolding(crate::specs::Members::method_attribute_at))]
fn method_attribute(
    alloc: Global,
    pool: &Pool,
    kinds: &DescriptorKinds,
    method: u16,
    done: bool,
    file: &mut Reader,
) -> Result<MethodAttribute, ClassRefusal>
    requires { AreKindsOf pool.now kinds.now }
    ensures { Gives (λ a. (a, file.new)) result
        (method_attribute_at pool.now method done file.old) }
{
    let raw = raw_attribute(pool, file)?;
    looked_into(alloc, pool, kinds, method, done, &raw)
}

fn is_code(attribute: &MethodAttribute) -> bool
    ensures { result ≡ is_code attribute.now }
{
    matches!(attribute, MethodAttribute::Code { .. })
}

/// Whether no further Code may stand behind an attribute.
fn is_done(done: bool, attribute: &MethodAttribute) -> bool
    ensures { result ≡ (done || is_code attribute.now) }
{
    done || is_code(attribute)
}

/// So many attributes; `done` says that no Code may stand among them.
fn method_attributes(
    alloc: Global,
    pool: &Pool,
    kinds: &DescriptorKinds,
    method: u16,
    mut done: bool,
    count: u16,
    file: &mut Reader,
) -> Result<Vec<MethodAttribute>, ClassRefusal>
    requires { AreKindsOf pool.now kinds.now }
    ensures { Gives (λ v. (v.items, file.new)) result
        (method_attributes_from pool.now method done count file.old) }
{
    let mut attributes = Vec::new(alloc);
    for _ in 0..count {
        let attribute = method_attribute(alloc, pool, kinds, method, done, file)?;
        done = is_done(done, &attribute);
        attributes.push(attribute)?;
    }
    Ok(attributes)
}

/// Whether a method is abstract or native (JVMS 4.7.3).
fn has_no_code(access: u16) -> bool
    ensures { result ≡ has_no_code access }
{
    access & 0x0500 != 0
}

fn is_method(kind: DescriptorKind) -> bool
    ensures { result ≡ is_method kind }
{
    matches!(kind, DescriptorKind::Method)
}

fn has_code(attributes: &[MethodAttribute]) -> bool
    ensures { result ≡ list_any is_code attributes.now }
{
    for attribute in attributes {
        if is_code(attribute) {
            return true;
        }
    }
    false
}

/// A method, of which the number among the methods is given.
#[tactic(auto, unfolding(crate::specs::Members::method_at))]
fn method(
    alloc: Global,
    pool: &Pool,
    kinds: &DescriptorKinds,
    number: u16,
    file: &mut Reader,
) -> Result<Method, ClassRefusal>
    requires { AreKindsOf pool.now kinds.now }
    ensures { Gives (λ m. (m, file.new)) result (method_at pool.now number file.old) }
{
    let at = file.at();
    let access = file.u16()?;
    let name = index(pool, Tag::Utf8, file)?;
    let descriptor = index(pool, Tag::Utf8, file)?;
    if !is_method(kind_at(pool, kinds, descriptor)) {
        return Err(ClassRefusal::BadDescriptor(descriptor));
    }
    let count = file.u16()?;
    let bare = has_no_code(access);
    let attributes = method_attributes(alloc, pool, kinds, number, bare, count, file)?;
    if !bare && !has_code(attributes.as_slice()) {
        return Err(ClassRefusal::BadAttribute(at));
    }
    Ok(Method {
        access,
        name,
        descriptor,
        attributes: ListOf::from_vec(attributes),
    })
}

/// So many methods.
fn some_methods(
    alloc: Global,
    pool: &Pool,
    kinds: &DescriptorKinds,
    count: u16,
    file: &mut Reader,
) -> Result<Vec<Method>, ClassRefusal>
    requires { AreKindsOf pool.now kinds.now }
    ensures { Gives (λ v. (v.items, file.new)) result (methods_from pool.now 0 count file.old) }
{
    let mut methods = Vec::new(alloc);
    for number in 0..count {
        methods.push(method(alloc, pool, kinds, number, file)?)?;
    }
    Ok(methods)
}

/// A count, and so many methods.
#[tactic(auto, unfolding(crate::specs::Members::methods_at))]
pub(crate) fn methods(
    alloc: Global,
    pool: &Pool,
    kinds: &DescriptorKinds,
    file: &mut Reader,
) -> Result<ListOf<Method>, ClassRefusal>
    requires { AreKindsOf pool.now kinds.now }
    ensures { Gives (λ list. (list, file.new)) result (methods_at pool.now file.old) }
{
    let count = file.u16()?;
    let methods = some_methods(alloc, pool, kinds, count, file)?;
    Ok(ListOf::from_vec(methods))
}
