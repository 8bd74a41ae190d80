//! What frames ask of each class (JVMS 2.9, 4.10.1.2, 5.4.3.3, 5.5).

ghost use Rattle.std.specs.Prelude.{◌≡◌, length, IfOk};
ghost use Rattle.class_set.specs.Linked.{class_count, names_of};
ghost use Rattle.class_code.specs.Firsts.{AreFirsts};
ghost use Rattle.class_code.specs.Signatures.{signature_texts};
ghost use Rattle.class_code.specs.Declarations.{all_declared};
ghost use Rattle.class_code.specs.Classes.{class_of, classes_of, initialiser_of, supertypes_of};

use crate::declared::{Declared, Numbered};
use crate::finding::{dispatch_in, found_from};
use ap_base::ListOf;
use class_set::ClassSet;
use frames::{Class, Dispatch};
use std::alloc::{AllocError, Global};
use text_table::Texts;

/// The method `<clinit>` that a class declares itself.
fn initialiser_of(numbered: &Numbered<'_>, class: u32) -> Option<u32>
    ensures { result ≡ initialiser_of numbered.now class }
{
    let set = numbered.set();
    if class as usize >= set.files().len() {
        return None;
    }
    match set.own_method(class, b"<clinit>", b"()V") {
        Some(method) if method.is_static => Some(numbered.method_number(method)),
        _ => None,
    }
}

/// What the look-up of each signature finds from a class on.
fn dispatch_from(
    alloc: Global,
    numbered: &Numbered<'_>,
    declared: &[ListOf<Declared>],
    class: u32,
) -> Result<ListOf<Dispatch>, AllocError>
    requires { declared.now ≡ all_declared numbered.now }
    ensures { IfOk result (λ rows. rows ≡ (class_of numbered.now class).dispatch) }
{
    let found = found_from(
        alloc,
        numbered.set(),
        declared,
        numbered.signature_count(),
        class,
    )?;
    dispatch_in(alloc, found.as_slice())
}

/// The classes of which a class is a subtype, by number; none of an array type.
fn supertypes_of(
    alloc: Global,
    set: &ClassSet,
    class: u32,
    count: u32,
) -> Result<ListOf<u32>, AllocError>
    requires { count ≡ class_count set.now }
    ensures { IfOk result (λ supertypes. supertypes ≡ supertypes_of set.now class) }
{
    let mut supertypes = Vec::new(alloc);
    if class >= count {
        return Ok(ListOf::from_vec(supertypes));
    }
    for above in 0..count {
        if set.is_sub(class, above) {
            supertypes.push(above)?;
        }
    }
    Ok(ListOf::from_vec(supertypes))
}

/// What frames ask of the class or the array type with this number, where so many are no array
/// types.
fn class_of(
    alloc: Global,
    numbered: &Numbered<'_>,
    declared: &[ListOf<Declared>],
    class: u32,
    count: u32,
) -> Result<Class, AllocError>
    requires declared { declared.now ≡ all_declared numbered.now }
    requires count { count ≡ class_count numbered.now }
    ensures { IfOk result (λ row. row ≡ class_of numbered.now class) }
{
    let set = numbered.set();
    Ok(Class {
        supertypes: supertypes_of(alloc, set, class, count)?,
        dispatch: dispatch_from(alloc, numbered, declared, class)?,
        superclass: set.superclass(class),
        initialiser: initialiser_of(numbered, class),
        of_program: (class as usize) < set.files().len(),
    })
}

/// The classes and array types of a program by number, given the number of each class's first
/// method and the signatures.
///
/// Takes time for each class and each method of its superclasses, and for each class and each
/// signature, with one look-up by name for each method.
pub(crate) fn classes_of(
    alloc: Global,
    set: &ClassSet,
    firsts: &[u32],
    signatures: &Texts,
) -> Result<ListOf<Class>, AllocError>
    requires firsts { AreFirsts set.now firsts.now }
    requires signatures { signatures.now ≡ signature_texts set.now.files }
    ensures { IfOk result (λ classes. classes ≡ classes_of set.now) }
{
    let count = set.type_count() as u32;
    let numbered = Numbered::new(set, firsts, signatures);
    let named = set.named_count() as u32;
    let declared = numbered.all_declared(alloc, named)?;
    let mut classes = Vec::new(alloc);
    for class in 0..count {
        let row = class_of(alloc, &numbered, declared.as_slice(), class, named)?;
        classes.push(row)?;
    }
    Ok(ListOf::from_vec(classes))
}
