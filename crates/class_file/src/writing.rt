//! Writing a class file.

ghost use Rattle.std.specs.Prelude.{◌≡◌, ◌++◌, ◌^◌, ◌<◌, IfOk, OnOk, All, List, ℕ, Ok, length};
ghost use Rattle.std.specs.List.{flat_map};
ghost use Rattle.byteorder.specs.Endian.{big_bytes};
ghost use Rattle.parsing.specs.Bytes.{IsBytes};
ghost use Rattle.const_pool.specs.Pool.{spelling};
ghost use Rattle.code_attribute.specs.Code.{Fits as CodeFits, code_attribute_bytes};
ghost use Rattle.class_file.specs.Members.{field_bytes, method_attribute_bytes, method_bytes};
ghost use Rattle.class_file.specs.Fits.{FieldFits, MethodAttributeFits, MethodFits, Fits};
ghost use Rattle.class_file.specs.Classes.{CanBeRead, class_in, head_bytes, class_bytes};

use crate::class::ClassFile;
use crate::field::Field;
use crate::method::{Method, MethodAttribute};
use ap_base::ListOf;
use class_items::put_attributes;
use code_attribute::{Code, put_code_attribute};
use const_pool::{Pool, write_pool};
use parsing::{put_u16, put_u32};
use std::alloc::{AllocError, Global};

/// What a class file begins with (JVMS 4.1).
const MAGIC: u32 = 0xCAFEBABE;

const MINOR_VERSION: u16 = 0;

const MAJOR_VERSION: u16 = 52;

fn put_head(out: &mut Vec<u8>) -> Result<(), AllocError>
    ensures { OnOk result (out.new.items ≡ out.old.items ++ head_bytes) }
{
    put_u32(out, MAGIC)?;
    put_u16(out, MINOR_VERSION)?;
    put_u16(out, MAJOR_VERSION)
}

fn put_pool(alloc: Global, out: &mut Vec<u8>, pool: &Pool) -> Result<(), AllocError>
    ensures { OnOk result (out.new.items ≡ out.old.items ++ spelling pool.now) }
{
    let bytes = write_pool(alloc, pool)?;
    out.extend_from_slice(&bytes)
}

fn put_indices(out: &mut Vec<u8>, indices: &[u16]) -> Result<(), AllocError>
    ensures { OnOk result (out.new.items ≡ out.old.items ++ flat_map (big_bytes 2) indices.now) }
{
    for index in indices {
        put_u16(out, *index)?;
    }
    Ok(())
}

/// Appends the count of the interfaces and the index of each.
fn put_interfaces(out: &mut Vec<u8>, interfaces: &ListOf<u16>) -> Result<(), AllocError>
    requires { length interfaces.now < 2 ^ 16 }
    ensures { OnOk result (out.new.items
        ≡ out.old.items ++ big_bytes 2 (length interfaces.now)
        ++ flat_map (big_bytes 2) interfaces.now) }
{
    put_u16(out, interfaces.len() as u16)?;
    put_indices(out, interfaces.as_slice())
}

fn put_field(out: &mut Vec<u8>, field: &Field) -> Result<(), AllocError>
    requires { FieldFits field.now }
    ensures { OnOk result (out.new.items ≡ out.old.items ++ field_bytes field.now) }
{
    put_u16(out, field.access)?;
    put_u16(out, field.name)?;
    put_u16(out, field.descriptor)?;
    put_attributes(out, &field.attributes)
}

fn put_each_field(out: &mut Vec<u8>, fields: &[Field]) -> Result<(), AllocError>
    requires { All FieldFits fields.now }
    ensures { OnOk result (out.new.items ≡ out.old.items ++ flat_map field_bytes fields.now) }
{
    for field in fields {
        put_field(out, field)?;
    }
    Ok(())
}

/// Appends the count of the fields and each of them.
fn put_fields(out: &mut Vec<u8>, fields: &ListOf<Field>) -> Result<(), AllocError>
    requires count { length fields.now < 2 ^ 16 }
    requires each { All FieldFits fields.now }
    ensures { OnOk result (out.new.items
        ≡ out.old.items ++ big_bytes 2 (length fields.now) ++ flat_map field_bytes fields.now) }
{
    put_u16(out, fields.len() as u16)?;
    put_each_field(out, fields.as_slice())
}

/// Appends an attribute of this content.
fn put_content(out: &mut Vec<u8>, name: u16, content: &[u8]) -> Result<(), AllocError>
    requires { length content.now < 2 ^ 32 }
    ensures { OnOk result (out.new.items
        ≡ out.old.items ++ big_bytes 2 name ++ big_bytes 4 (length content.now) ++ content.now) }
{
    put_u16(out, name)?;
    put_u32(out, content.len() as u32)?;
    out.extend_from_slice(content)
}

/// Appends an attribute that is a code. Its length stands before its content, which alone tells it.
fn put_code(alloc: Global, out: &mut Vec<u8>, name: u16, code: &Code) -> Result<(), AllocError>
    requires fits { CodeFits code.now }
    requires short { length (code_attribute_bytes code.now) < 2 ^ 32 }
    ensures { let content = code_attribute_bytes code.now in
        OnOk result (out.new.items
        ≡ out.old.items ++ big_bytes 2 name ++ big_bytes 4 (length content) ++ content) }
{
    let mut content = Vec::new(alloc);
    put_code_attribute(&mut content, code)?;
    put_content(out, name, &content)
}

fn put_method_attribute(
    alloc: Global,
    out: &mut Vec<u8>,
    attribute: &MethodAttribute,
) -> Result<(), AllocError>
    requires { MethodAttributeFits attribute.now }
    ensures { OnOk result (out.new.items ≡ out.old.items ++ method_attribute_bytes attribute.now) }
{
    match attribute {
        MethodAttribute::Code { name, code } => put_code(alloc, out, *name, code),
        MethodAttribute::Other(other) => put_content(out, other.name, other.content.as_slice()),
    }
}

fn put_method_attributes(
    alloc: Global,
    out: &mut Vec<u8>,
    attributes: &[MethodAttribute],
) -> Result<(), AllocError>
    requires { All MethodAttributeFits attributes.now }
    ensures { OnOk result (out.new.items
        ≡ out.old.items ++ flat_map method_attribute_bytes attributes.now) }
{
    for attribute in attributes {
        put_method_attribute(alloc, out, attribute)?;
    }
    Ok(())
}

fn put_method(alloc: Global, out: &mut Vec<u8>, method: &Method) -> Result<(), AllocError>
    requires { MethodFits method.now }
    ensures { OnOk result (out.new.items ≡ out.old.items ++ method_bytes method.now) }
{
    put_u16(out, method.access)?;
    put_u16(out, method.name)?;
    put_u16(out, method.descriptor)?;
    put_u16(out, method.attributes.len() as u16)?;
    put_method_attributes(alloc, out, method.attributes.as_slice())
}

fn put_each_method(alloc: Global, out: &mut Vec<u8>, methods: &[Method]) -> Result<(), AllocError>
    requires { All MethodFits methods.now }
    ensures { OnOk result (out.new.items ≡ out.old.items ++ flat_map method_bytes methods.now) }
{
    for method in methods {
        put_method(alloc, out, method)?;
    }
    Ok(())
}

/// Appends the count of the methods and each of them.
fn put_methods(alloc: Global, out: &mut Vec<u8>, methods: &ListOf<Method>) -> Result<(), AllocError>
    requires count { length methods.now < 2 ^ 16 }
    requires each { All MethodFits methods.now }
    ensures { OnOk result (out.new.items
        ≡ out.old.items ++ big_bytes 2 (length methods.now) ++ flat_map method_bytes methods.now) }
{
    put_u16(out, methods.len() as u16)?;
    put_each_method(alloc, out, methods.as_slice())
}

fn put_class(alloc: Global, out: &mut Vec<u8>, class: &ClassFile) -> Result<(), AllocError>
    requires { Fits class.now }
    ensures { OnOk result (out.new.items ≡ out.old.items ++ class_bytes class.now) }
{
    put_head(out)?;
    put_pool(alloc, out, &class.pool)?;
    put_u16(out, class.access)?;
    put_u16(out, class.this_class)?;
    put_u16(out, class.super_class)?;
    put_interfaces(out, &class.interfaces)?;
    put_fields(out, &class.fields)?;
    put_methods(alloc, out, &class.methods)?;
    put_attributes(out, &class.attributes)
}

/// Writes a class file that can be read (JVMS 4.1).
pub fn write_class(alloc: Global, class: &ClassFile) -> Result<Vec<u8>, AllocError>
    requires { CanBeRead class.now }
    ensures bytes { IfOk result (λ out. out.items ≡ class_bytes class.now) }
    // The bytes from which the class was read, and no others.
    ensures same { IfOk result (λ out. (bytes : List ℕ) → IsBytes bytes
        → class_in bytes ≡ Ok class.now → out.items ≡ bytes) }
    // They are read as this class.
    ensures again { IfOk result (λ out. class_in out.items ≡ Ok class.now) }
{
    let mut out = Vec::new(alloc);
    put_class(alloc, &mut out, class)?;
    Ok(out)
}
