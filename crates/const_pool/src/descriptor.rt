//! Descriptors of fields and methods (JVMS 4.3.2, 4.3.3). Those of float and double are left out.

ghost use Rattle.std.specs.Prelude.{◌≡◌, ◌≢◌, ◌+◌, ◌<◌, ◌≤◌, length, vec_len, drop, true, IfOk, IfSome, IsErrOf, Some};
ghost use Rattle.std.specs.Option.{option_map};
ghost use Rattle.const_pool.specs.declared.descriptor.Descriptor.{Descriptor};
ghost use Rattle.const_pool.specs.declared.descriptor.DescriptorRefusal.TheVariants.{OutOfMemory};
ghost use Rattle.const_pool.specs.Utf8.{IsModifiedUtf8};
ghost use Rattle.const_pool.specs.Descriptor.{IsDescriptor, descriptor_bytes};
ghost use Rattle.const_pool.specs.Parsing.{Gives, after_byte, name_len, base_of, class_at, after_front, base_at, element_at};
ghost use Rattle.const_pool.specs.Parsing.{brackets, field_at, parameters_at, only_field, result_at, method_at, descriptor_at};

use crate::Name;
use std::alloc::{AllocError, AllocFailed, Global};
use std::marker::Model;
use thiserror::Error;

/// The primitive types that descriptors may name (JVMS 4.3.2, table 4.3-A), but for float and double.
#[derive(Clone, Copy, Debug, PartialEq, Eq)]
pub enum BaseType {
    /// `B`.
    Byte,
    /// `C`.
    Char,
    /// `I`.
    Int,
    /// `J`.
    Long,
    /// `S`.
    Short,
    /// `Z`.
    Boolean,
}

/// A type that is no array.
#[derive(Drop)]
pub enum ElementType {
    /// A primitive type.
    Base(BaseType),
    /// The class or interface with this name, in internal form: unqualified names with slashes between them,
    /// none of them empty and none with `.`, `;` or `[` (JVMS 4.2.1, 4.2.2).
    Class(Name),
}

/// A type of a field, a parameter or a result (JVMS 4.3.2).
#[derive(Drop)]
pub struct FieldType {
    /// How many dimensions the array has, 0 where the type is no array.
    pub dimensions: u8,
    /// The type of the innermost elements.
    pub element: ElementType,
}

/// The types of a method's parameters, which contracts see as a list.
#[derive(Drop)]
pub struct Parameters {
    types: Vec<FieldType>,
}

impl Model for Parameters {
    ghost use Rattle.std.specs.Prelude.{List};
    ghost use Rattle.const_pool.specs.declared.descriptor.FieldType.{FieldType};

    ghost Value = { List FieldType };

    ghost view = { λ p. p.types.items };
}

impl Parameters {
    /// The parameters of these types.
    pub fn new(types: Vec<FieldType>) -> Parameters
        ensures { result ≡ types.items }
    {
        Parameters { types }
    }

    /// The types, in order.
    pub fn as_slice(&self) -> &[FieldType]
        ensures { result.now ≡ self.now }
    {
        self.types.as_slice()
    }
}

/// A descriptor of a field or of a method.
#[derive(Drop)]
pub enum Descriptor {
    /// A field's type (JVMS 4.3.2).
    Field(FieldType),
    /// A method's parameters and result (JVMS 4.3.3).
    Method {
        /// The types of the parameters.
        parameters: Parameters,
        /// The type of the result, `None` for `V`.
        result: Option<FieldType>,
    },
}

/// Why a text gave no descriptor.
#[derive(Clone, Copy, Debug, Error)]
pub enum DescriptorRefusal {
    /// The text is no descriptor.
    #[error("not a descriptor")]
    Bad,
    /// No memory was left.
    #[error("out of memory")]
    OutOfMemory,
}

impl From<AllocError> for DescriptorRefusal {
    ghost from_gives = { λ _ e. e ≡ OutOfMemory };

    fn from(_e: AllocError) -> DescriptorRefusal {
        DescriptorRefusal::OutOfMemory
    }
}

impl<T: Drop> From<AllocFailed<T>> for DescriptorRefusal {
    ghost from_gives = { λ _ e. e ≡ OutOfMemory };

    fn from(_e: AllocFailed<T>) -> DescriptorRefusal {
        DescriptorRefusal::OutOfMemory
    }
}

/// Whether a part of a class name begins after this byte of the name, `None` where it is no byte of one.
/// Parts stand between slashes, and none is empty.
fn begins_after(fresh: bool, byte: u8) -> Option<bool>
    ensures { result ≡ after_byte fresh byte }
{
    match byte {
        b'/' if fresh => None,
        b'/' => Some(true),
        b'.' | b';' | b'[' => None,
        _ => Some(false),
    }
}

/// How many bytes the class name in front of the first `;` has, `None` where no class name stands there.
fn class_name_len(bytes: &[u8]) -> Option<usize>
    ensures len { result ≡ name_len true bytes.now }
    ensures within { IfSome result (λ len. len < length bytes.now) }
{
    let mut fresh = true;
    for (len, byte) in bytes.iter().enumerate() {
        if *byte == b';' {
            return if fresh { None } else { Some(len) };
        }
        match begins_after(fresh, *byte) {
            Some(next) => fresh = next,
            None => return None,
        }
    }
    None
}

fn base_with(byte: u8) -> Option<BaseType>
    ensures { result ≡ base_of byte }
{
    match byte {
        b'B' => Some(BaseType::Byte),
        b'C' => Some(BaseType::Char),
        b'I' => Some(BaseType::Int),
        b'J' => Some(BaseType::Long),
        b'S' => Some(BaseType::Short),
        b'Z' => Some(BaseType::Boolean),
        _ => None,
    }
}

/// A class name and the `;` after it.
#[tactic(auto, unfolding(crate::specs::Parsing::class_at))]
fn class_type(alloc: Global, bytes: &[u8]) -> Result<(ElementType, &[u8]), DescriptorRefusal>
    requires { IsModifiedUtf8 bytes.now }
    ensures { Gives (λ x. (x.0, x.1.now)) result (class_at bytes.now) }
{
    let Some(len) = class_name_len(bytes) else {
        return Err(DescriptorRefusal::Bad);
    };
    let name = Name::copy(alloc, &bytes[..len])?;
    Ok((ElementType::Class(name), &bytes[len + 1..]))
}

/// The bytes after this ASCII byte, where it stands at the front.
#[tactic(auto, unfolding(crate::specs::Parsing::after_front))]
fn after(byte: u8, bytes: &[u8]) -> Option<&[u8]>
    requires { byte < 128 }
    ensures rest { option_map (λ rest. rest.now) result ≡ after_front byte bytes.now }
    ensures utf8 { IsModifiedUtf8 bytes.now → IfSome result (λ rest. IsModifiedUtf8 rest.now) }
{
    match bytes {
        [first, rest @ ..] if *first == byte => Some(rest),
        _ => None,
    }
}

#[tactic(auto, unfolding(crate::specs::Parsing::base_at))]
fn base_type(bytes: &[u8]) -> Result<(ElementType, &[u8]), DescriptorRefusal>
    ensures { Gives (λ x. (x.0, x.1.now)) result (base_at bytes.now) }
{
    match bytes {
        [byte, rest @ ..] => match base_with(*byte) {
            Some(base) => Ok((ElementType::Base(base), rest)),
            None => Err(DescriptorRefusal::Bad),
        },
        [] => Err(DescriptorRefusal::Bad),
    }
}

#[tactic(auto, unfolding(crate::specs::Parsing::element_at))]
fn element_type(alloc: Global, bytes: &[u8]) -> Result<(ElementType, &[u8]), DescriptorRefusal>
    requires { IsModifiedUtf8 bytes.now }
    ensures { Gives (λ x. (x.0, x.1.now)) result (element_at bytes.now) }
{
    match after(b'L', bytes) {
        Some(rest) => class_type(alloc, rest),
        None => base_type(bytes),
    }
}

/// How many `[` stand at the front.
fn leading_brackets(bytes: &[u8]) -> usize
    ensures count { result ≡ brackets bytes.now }
    ensures within { result ≤ length bytes.now }
{
    let mut count = 0;
    while count < bytes.len() && bytes[count] == b'[' {
        count += 1;
    }
    count
}

#[tactic(auto, unfolding(crate::specs::Parsing::field_at))]
fn field_type(alloc: Global, bytes: &[u8]) -> Result<(FieldType, &[u8]), DescriptorRefusal>
    requires { IsModifiedUtf8 bytes.now }
    ensures { Gives (λ x. (x.0, x.1.now)) result (field_at bytes.now) }
{
    let dimensions = leading_brackets(bytes);
    if dimensions > 255 {
        return Err(DescriptorRefusal::Bad);
    }
    let (element, rest) = element_type(alloc, &bytes[dimensions..])?;
    let dimensions = dimensions as u8;
    Ok((
        FieldType {
            dimensions,
            element,
        },
        rest,
    ))
}

/// The types of the parameters up to the closing parenthesis, and the bytes after it.
fn parameter_types(
    alloc: Global,
    bytes: &[u8],
) -> Result<(Vec<FieldType>, &[u8]), DescriptorRefusal>
    requires { IsModifiedUtf8 bytes.now }
    ensures { Gives (λ x. (x.0.items, x.1.now)) result
        (parameters_at (length bytes.now) bytes.now) }
{
    let mut types = Vec::new(alloc);
    let mut rest = bytes;
    'parameters: loop {
        match after(b')', rest) {
            Some(after) => return Ok((types, after)),
            None => {}
        }
        let (parameter, after) = field_type(alloc, rest)?;
        types.push(parameter)?;
        rest = after;
    }
}

#[tactic(auto, unfolding(crate::specs::Parsing::only_field))]
fn whole_field(alloc: Global, bytes: &[u8]) -> Result<FieldType, DescriptorRefusal>
    requires { IsModifiedUtf8 bytes.now }
    ensures { Gives (λ x. x) result (only_field bytes.now) }
{
    let (field, rest) = field_type(alloc, bytes)?;
    if !rest.is_empty() {
        return Err(DescriptorRefusal::Bad);
    }
    Ok(field)
}

#[tactic(auto, unfolding(crate::specs::Parsing::result_at))]
fn result_type(alloc: Global, bytes: &[u8]) -> Result<Option<FieldType>, DescriptorRefusal>
    requires { IsModifiedUtf8 bytes.now }
    ensures { Gives (λ x. x) result (result_at bytes.now) }
{
    if matches!(bytes, [b'V']) {
        return Ok(None);
    }
    Ok(Some(whole_field(alloc, bytes)?))
}

#[tactic(auto, unfolding(crate::specs::Parsing::method_at))]
fn method(alloc: Global, bytes: &[u8]) -> Result<Descriptor, DescriptorRefusal>
    requires { IsModifiedUtf8 bytes.now }
    ensures { Gives (λ x. x) result (method_at bytes.now) }
{
    let (types, rest) = parameter_types(alloc, bytes)?;
    let result = result_type(alloc, rest)?;
    Ok(Descriptor::Method {
        parameters: Parameters::new(types),
        result,
    })
}

#[tactic(auto, unfolding(crate::specs::Parsing::descriptor_at))]
fn whole_descriptor(alloc: Global, bytes: &[u8]) -> Result<Descriptor, DescriptorRefusal>
    requires { IsModifiedUtf8 bytes.now }
    ensures { Gives (λ x. x) result (descriptor_at bytes.now) }
{
    match after(b'(', bytes) {
        Some(rest) => method(alloc, rest),
        None => Ok(Descriptor::Field(whole_field(alloc, bytes)?)),
    }
}

/// Reads a descriptor, which is all of the text (JVMS 4.3.2, 4.3.3). An array has at most 255 dimensions, a method
/// any number of parameters. Float and double are left out.
pub fn read_descriptor(alloc: Global, name: &Name) -> Result<Descriptor, DescriptorRefusal>
    // What is read is spelled so.
    ensures found { IfOk result (λ d. name.now ≡ descriptor_bytes d) }
    ensures descriptor { IfOk result IsDescriptor }
    // What is spelled so is read, unless memory runs out.
    ensures only { (d : Descriptor) → IsDescriptor d → name.now ≡ descriptor_bytes d
        → Gives (λ x. x) result (Some d) }
    // Nothing else is a descriptor.
    ensures bad { IsErrOf result DescriptorRefusal.Bad
        → (d : Descriptor) → IsDescriptor d → name.now ≢ descriptor_bytes d }
    // So the answer is a function of the text.
    ensures exact { Gives (λ x. x) result (descriptor_at name.now) }
{
    whole_descriptor(alloc, name.as_slice())
}
