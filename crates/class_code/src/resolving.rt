//! What the entries of constant pools name (JVMS 5.4.3).

ghost use Rattle.std.specs.Prelude.{◌≡◌, ◌<◌, drop, length, IfOk};
ghost use Rattle.class_set.specs.Linked.{names_of};
ghost use Rattle.graph_model.specs.Heaps.{has_number};
ghost use Rattle.plain_model.specs.Facts.{superclasses_of};
ghost use Rattle.class_set.specs.Facts.{facts_of};
ghost use Rattle.class_code.specs.Methods.{has_code, can_run, method_count};
ghost use Rattle.class_code.specs.Entries.{class_called, class_of_entry, called_method, method_from, static_of_entry};
ghost use Rattle.class_code.specs.Entries.{special_start, special_of_entry};
ghost use Rattle.class_code.specs.Named.{name_of};

use crate::names::{Named, method_name};
use class_file::ClassFile;
use class_links::class_name;
use class_set::ClassSet;
use const_pool::Pool;
use run_types::{LinkKind, MethodAt};

/// The class or the array type of this name (JVMS 5.4.3.1).
fn class_called(set: &ClassSet, name: &[u8]) -> Result<u32, LinkKind>
    ensures found { result ≡ class_called set.now name.now }
    ensures there { IfOk result (λ class. class < length (names_of set.now)) }
{
    match set.class_named(name) {
        Some(class) => Ok(class),
        None => Err(LinkKind::MissingClass),
    }
}

/// The class or the array type that an entry names.
pub(crate) fn class_of_entry(set: &ClassSet, pool: &Pool, index: u16) -> Result<u32, LinkKind>
    ensures found { result ≡ class_of_entry set.now pool.now index }
    ensures there { IfOk result (λ class. class < length (names_of set.now)) }
{
    class_called(set, class_name(pool, index))
}

/// Whether the method of a file has code.
fn has_code(file: &ClassFile, method: u32) -> bool
    ensures { result ≡ has_code file.now method }
{
    match file.methods.as_slice().get(method as usize) {
        Some(method) => method.code().is_some(),
        None => false,
    }
}

/// Whether a method of the set has code, or is a built-in one.
fn can_run(set: &ClassSet, method: MethodAt) -> bool
    ensures { result ≡ can_run set.now method }
{
    match set.files().get(method.class as usize) {
        Some(file) => has_code(file, method.method),
        None => true,
    }
}

/// The method, where it can be called so.
pub(crate) fn called_method(
    set: &ClassSet,
    is_static: bool,
    method: MethodAt,
) -> Result<MethodAt, LinkKind>
    ensures found { result ≡ called_method set.now is_static method }
    ensures same { IfOk result (λ m. m ≡ method) }
{
    if method.is_static != is_static {
        return Err(LinkKind::StaticMismatch);
    }
    if !can_run(set, method) {
        return Err(LinkKind::NoCode);
    }
    Ok(method)
}

/// The method that a call finds from a class on, where it can be called so.
fn method_from(
    set: &ClassSet,
    is_static: bool,
    class: u32,
    named: &Named<'_>,
) -> Result<MethodAt, LinkKind>
    ensures found { result ≡ method_from set.now is_static class (name_of named.now) }
    ensures there { IfOk result (λ m. m.method < method_count set.now m.class) }
{
    match set.find_method(class, named.name.as_slice(), named.descriptor.as_slice()) {
        Some(method) => called_method(set, is_static, method),
        None => Err(LinkKind::MissingMethod),
    }
}

/// The method that an `invokestatic` calls (JVMS 6.5).
pub(crate) fn static_of_entry(set: &ClassSet, pool: &Pool, index: u16) -> Result<MethodAt, LinkKind>
    ensures found { result ≡ static_of_entry set.now pool.now index }
    ensures there { IfOk result (λ m. m.method < method_count set.now m.class) }
{
    match method_name(pool, index) {
        Some(named) => {
            let class = class_called(set, named.class)?;
            method_from(set, true, class, &named)
        }
        None => Err(LinkKind::MissingMethod),
    }
}

/// Whether a class is above another by superclasses alone.
fn is_superclass(set: &ClassSet, class: u32, of: u32) -> bool
    ensures { result ≡ has_number (drop 1 (superclasses_of (facts_of set.now) of)) class }
{
    let mut at = of;
    for _ in 0..set.named_count() {
        match set.superclass(at) {
            Some(superclass) if superclass == class => return true,
            Some(superclass) => at = superclass,
            None => return false,
        }
    }
    false
}

/// Where an `invokespecial` of a class begins to look.
fn special_start(set: &ClassSet, current: u32, class: u32, name: &[u8]) -> u32
    ensures { result ≡ special_start set.now current class name.now }
{
    if name == b"<init>".as_slice() || !is_superclass(set, class, current) {
        return class;
    }
    match set.superclass(current) {
        Some(superclass) => superclass,
        None => class,
    }
}

/// The method that an `invokespecial` in a class calls (JVMS 6.5).
pub(crate) fn special_of_entry(
    set: &ClassSet,
    current: u32,
    pool: &Pool,
    index: u16,
) -> Result<MethodAt, LinkKind>
    ensures found { result ≡ special_of_entry set.now current pool.now index }
    ensures there { IfOk result (λ m. m.method < method_count set.now m.class) }
{
    match method_name(pool, index) {
        Some(named) => {
            let class = class_called(set, named.class)?;
            let start = special_start(set, current, class, named.name.as_slice());
            method_from(set, false, start, &named)
        }
        None => Err(LinkKind::MissingMethod),
    }
}
