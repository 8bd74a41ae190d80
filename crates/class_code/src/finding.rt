//! What calls find from a class on, by the numbers of their signatures (JVMS 5.4.3.3, 6.5).

ghost use Rattle.std.specs.Prelude.{◌≡◌, ℕ, ◌<◌, ◌^◌, [], ◌∷◌, None, length, slice_index_or, IfOk};
ghost use Rattle.plain_model.specs.Facts.{superclasses_of};
ghost use Rattle.class_set.specs.Facts.{facts_of};
ghost use Rattle.class_code.specs.Declarations.{IsFilled, all_declared, declared_by, dispatch_in, found_along, found_among};
ghost use Rattle.class_code.specs.Declarations.{has_signature};

use crate::declared::Declared;
use ap_base::ListOf;
use class_set::ClassSet;
use frames::{Dispatch, Target};
use std::alloc::{AllocError, Global};

/// Fills in what calls of a method's signature find, where they found nothing before.
fn add_method(found: &mut [Option<Target>], method: Declared)
    ensures { IsFilled found.old found.new (λ n. found_among n (method ∷ [])) }
{
    if let Some(signature) = method.signature {
        let signature = signature as usize;
        if signature < found.len() && found[signature].is_none() {
            found[signature] = Some(method.target);
        }
    }
}

/// Fills in what calls find among the methods of a class, where they found nothing before.
fn add_methods(found: &mut [Option<Target>], methods: &[Declared])
    ensures { IsFilled found.old found.new (λ n. found_among n methods.now) }
{
    for method in methods {
        add_method(found, *method);
    }
}

/// The methods that a class declares.
fn declared_by<'a>(set: &ClassSet, declared: &'a [ListOf<Declared>], class: u32) -> &'a [Declared]
    requires { declared.now ≡ all_declared set.now }
    ensures { result.now ≡ declared_by set.now class }
{
    match declared.get(class as usize) {
        Some(methods) => methods.as_slice(),
        None => &[],
    }
}

/// What calls find from a class on: in the class, and then up its superclasses. Takes time for each
/// method that they declare.
pub(crate) fn found_from(
    alloc: Global,
    set: &ClassSet,
    declared: &[ListOf<Declared>],
    signatures: u32,
    class: u32,
) -> Result<Vec<Option<Target>>, AllocError>
    requires { declared.now ≡ all_declared set.now }
    ensures count { IfOk result (λ found. length found.items ≡ signatures) }
    ensures found { IfOk result (λ found. (n : ℕ) → n < signatures → slice_index_or found.items n None
        ≡ found_along set.now n (superclasses_of (facts_of set.now) class)) }
{
    let mut found = vec![in alloc; None; signatures as usize]?;
    let mut at = class;
    for _ in 0..set.named_count() {
        add_methods(&mut found, declared_by(set, declared, at));
        let Some(superclass) = set.superclass(at) else {
            return Ok(found);
        };
        at = superclass;
    }
    add_methods(&mut found, declared_by(set, declared, at));
    Ok(found)
}

/// The rows of what calls find.
pub(crate) fn dispatch_in(
    alloc: Global,
    found: &[Option<Target>],
) -> Result<ListOf<Dispatch>, AllocError>
    requires { length found.now < 2 ^ 32 }
    ensures { IfOk result (λ rows. rows ≡ dispatch_in 0 found.now) }
{
    let mut rows = Vec::new(alloc);
    for (number, target) in found.iter().enumerate() {
        if let Some(target) = target {
            rows.push(Dispatch {
                signature: number as u32,
                target: *target,
            })?;
        }
    }
    Ok(ListOf::from_vec(rows))
}
