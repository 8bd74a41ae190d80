//! The types of a method's arguments (JVMS 4.3.3).

ghost use Rattle.std.specs.Prelude.{◌≡◌, map, reverse, IfOk};
ghost use Rattle.const_pool.specs.Parsing.{descriptor_at};
ghost use Rattle.const_pool.specs.Utf8.{IsModifiedUtf8};
ghost use Rattle.class_code.specs.Methods.{sort_of_base, sort_of_element, sort_of_type, sorts_of, sorts_in, parameters_of};

use ap_base::ListOf;
use code_form::Sort;
use const_pool::{
    BaseType, Descriptor, DescriptorRefusal, ElementType, FieldType, Name, read_descriptor,
};
use std::alloc::{AllocError, Global};

fn sort_of_base(base: BaseType) -> Sort
    ensures { result ≡ sort_of_base base }
{
    match base {
        BaseType::Long => Sort::Long,
        _ => Sort::Int,
    }
}

fn sort_of_element(element: &ElementType) -> Sort
    ensures { result ≡ sort_of_element element.now }
{
    match element {
        ElementType::Base(base) => sort_of_base(*base),
        ElementType::Class(_) => Sort::Reference,
    }
}

fn sort_of_type(field: &FieldType) -> Sort
    ensures { result ≡ sort_of_type field.now }
{
    if field.dimensions == 0 {
        return sort_of_element(&field.element);
    }
    Sort::Reference
}

/// The types of the parameters, the last one first.
fn sorts_reversed(alloc: Global, types: &[FieldType]) -> Result<Vec<Sort>, AllocError>
    ensures { IfOk result (λ sorts. sorts.items ≡ reverse (map sort_of_type types.now)) }
{
    let mut sorts = Vec::new(alloc);
    for field in types {
        sorts.push(sort_of_type(field))?;
    }
    sorts.reverse();
    Ok(sorts)
}

/// The types of the parameters that a descriptor has, the last one first. One of a field has none.
fn sorts_of(alloc: Global, descriptor: &Descriptor) -> Result<Vec<Sort>, AllocError>
    ensures { IfOk result (λ sorts. sorts.items ≡ reverse (sorts_of descriptor.now)) }
{
    match descriptor {
        Descriptor::Method { parameters, .. } => sorts_reversed(alloc, parameters.as_slice()),
        Descriptor::Field(_) => Ok(Vec::new(alloc)),
    }
}

fn sorts_named(alloc: Global, descriptor: &Name) -> Result<Vec<Sort>, AllocError>
    ensures { IfOk result
        (λ sorts. sorts.items ≡ reverse (sorts_in (descriptor_at descriptor.now))) }
{
    match read_descriptor(alloc, descriptor) {
        Ok(descriptor) => sorts_of(alloc, &descriptor),
        Err(DescriptorRefusal::Bad) => Ok(Vec::new(alloc)),
        Err(DescriptorRefusal::OutOfMemory) => Err(AllocError),
    }
}

/// The types of the arguments of a method with this descriptor, the last one first. An instance
/// method has its receiver before the others.
pub(crate) fn parameters_of(
    alloc: Global,
    is_static: bool,
    descriptor: &Name,
) -> Result<ListOf<Sort>, AllocError>
    ensures { IfOk result (λ sorts. sorts ≡ parameters_of is_static descriptor.now) }
{
    let mut sorts = sorts_named(alloc, descriptor)?;
    if !is_static {
        sorts.push(Sort::Reference)?;
    }
    Ok(ListOf::from_vec(sorts))
}

/// The same of a built-in method, whose descriptor is a text of the runtime's own.
pub(crate) fn parameters_spelled(
    alloc: Global,
    is_static: bool,
    descriptor: &[u8],
) -> Result<ListOf<Sort>, AllocError>
    requires { IsModifiedUtf8 descriptor.now }
    ensures { IfOk result (λ sorts. sorts ≡ parameters_of is_static descriptor.now) }
{
    let descriptor = Name::copy(alloc, descriptor)?;
    parameters_of(alloc, is_static, &descriptor)
}
