//! The methods that are looked for from the receiver's class on (JVMS 6.5, invokevirtual and
//! invokeinterface).

ghost use Rattle.std.specs.Prelude.{◌≡◌, ◌≤◌, ◌^◌, false, ℕ, ◌++◌, [], ◌∷◌, length, IfOk, OnOk};
ghost use Rattle.frames.specs.Calls.{cells_taken};
ghost use Rattle.class_code.specs.Methods.{parameters_of};
ghost use Rattle.class_code.specs.Named.{name_of};
ghost use Rattle.class_code.specs.Entries.{selector_called, selector_of_entry, selector_rows, rows_in, rows_of};
ghost use Rattle.class_code.specs.Selected.{if_callable, on_stack};
ghost use Rattle.class_code.specs.Signatures.{signature_texts};

use crate::arguments::parameters_of;
use crate::names::{Named, method_name};
use crate::signatures::signature_number;
use ap_base::ListOf;
use class_set::ClassSet;
use code_form::Sort;
use const_pool::{Name, Pool};
use frames::Selector;
use run_types::LinkKind;
use std::alloc::{AllocError, Global};
use text_table::Texts;

fn cells_of(sort: Sort) -> u32
    ensures cells { result ≡ cells_taken (sort ∷ []) }
    ensures few { result ≤ 2 }
{
    match sort {
        Sort::Long => 2,
        _ => 1,
    }
}

/// How many cells arguments of these types take, `None` exactly where it is more than any stack
/// has.
fn cells_taken(sorts: &[Sort]) -> Option<u16>
    ensures { result ≡ on_stack (cells_taken sorts.now) }
{
    let mut cells: u32 = 0;
    for sort in sorts {
        cells += cells_of(*sort);
        if cells > 0xFFFF {
            return None;
        }
    }
    Some(cells as u16)
}

/// How many cells the arguments of a method with this descriptor take, with the receiver.
fn arguments_of(alloc: Global, descriptor: &Name) -> Result<Option<u16>, AllocError>
    ensures { IfOk result (λ cells. cells
        ≡ on_stack (cells_taken (parameters_of false descriptor.now))) }
{
    let sorts = parameters_of(alloc, false, descriptor)?;
    Ok(cells_taken(sorts.as_slice()))
}

/// The method of these names, which an entry of the pool of this class has. `None` for one that no
/// stack has the arguments of.
fn selector_called(
    alloc: Global,
    set: &ClassSet,
    signatures: &Texts,
    entry: (u32, u16),
    named: &Named<'_>,
) -> Result<Result<Option<Selector>, LinkKind>, AllocError>
    requires signatures { signatures.now ≡ signature_texts set.now.files }
    ensures { IfOk result (λ selector. selector
        ≡ if_callable (selector_called set.now entry.0 entry.1 (name_of named.now))) }
{
    let Some(within) = set.class_named(named.class) else {
        return Ok(Err(LinkKind::MissingClass));
    };
    let Some(arguments) = arguments_of(alloc, named.descriptor)? else {
        return Ok(Ok(None));
    };
    let name = named.name.as_slice();
    let descriptor = named.descriptor.as_slice();
    Ok(Ok(Some(Selector {
        signature: signature_number(alloc, signatures, name, descriptor)?,
        within,
        arguments,
        class: entry.0,
        index: entry.1,
    })))
}

/// What an entry of the pool of a class names as a method that is looked for from the receiver's
/// class on. `None` for one that no stack has the arguments of.
pub(crate) fn selector_of_entry(
    alloc: Global,
    set: &ClassSet,
    signatures: &Texts,
    class: u32,
    pool: &Pool,
    index: u16,
) -> Result<Result<Option<Selector>, LinkKind>, AllocError>
    requires signatures { signatures.now ≡ signature_texts set.now.files }
    ensures { IfOk result (λ selector. selector
        ≡ if_callable (selector_of_entry set.now class pool.now index)) }
{
    match method_name(pool, index) {
        Some(named) => selector_called(alloc, set, signatures, (class, index), &named),
        None => Ok(Err(LinkKind::MissingMethod)),
    }
}

/// Adds the selector of an entry, where it has one.
fn add_selector(
    alloc: Global,
    selectors: &mut Vec<Selector>,
    set: &ClassSet,
    signatures: &Texts,
    class: u32,
    pool: &Pool,
    index: u16,
) -> Result<(), AllocError>
    requires signatures { signatures.now ≡ signature_texts set.now.files }
    ensures { OnOk result (selectors.new.items
        ≡ selectors.old.items ++ selector_rows set.now class pool.now index) }
{
    let selector = selector_of_entry(alloc, set, signatures, class, pool, index)?;
    if let Ok(Some(selector)) = selector {
        selectors.push(selector)?;
    }
    Ok(())
}

/// Adds the selectors of the entries of the pool of a class, in order.
fn add_selectors(
    alloc: Global,
    selectors: &mut Vec<Selector>,
    set: &ClassSet,
    signatures: &Texts,
    class: u32,
    pool: &Pool,
) -> Result<(), AllocError>
    requires signatures { signatures.now ≡ signature_texts set.now.files }
    ensures { OnOk result (selectors.new.items
        ≡ selectors.old.items ++ rows_in (selector_rows set.now) class pool.now (length pool.now)) }
{
    for index in 0..pool.len() {
        add_selector(alloc, selectors, set, signatures, class, pool, index)?;
    }
    Ok(())
}

/// The selectors of a program, in the order of the classes of files and of the entries of each.
pub(crate) fn selectors_of(
    alloc: Global,
    set: &ClassSet,
    signatures: &Texts,
) -> Result<ListOf<Selector>, AllocError>
    requires few { length set.now.files ≤ 4096 }
    requires signatures { signatures.now ≡ signature_texts set.now.files }
    ensures { IfOk result
        (λ selectors. selectors ≡ rows_of (selector_rows set.now) set.now.files) }
{
    let mut selectors = Vec::new(alloc);
    for (class, file) in set.files().iter().enumerate() {
        add_selectors(
            alloc,
            &mut selectors,
            set,
            signatures,
            class as u32,
            &file.pool,
        )?;
    }
    Ok(ListOf::from_vec(selectors))
}
