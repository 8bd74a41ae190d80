// The roots of an opening graph, and the durable roots of a class set, by their names.
ghost use Rattle.std.specs.Prelude.{◌≡◌, ◌≢◌, ◌++◌, ℕ, AllPairs, IfOk, List, OnOk, filter, map};
ghost use Rattle.graph_model.specs.declared.types.NamedValue.{NamedValue as Named};
ghost use Rattle.graph_model.specs.declared.types.Graph.{Graph as GraphOf};
ghost use Rattle.class_set.specs.Facts.{facts_of};
ghost use Rattle.plain_model.specs.Facts.{SetFacts};
ghost use Rattle.plain_model.specs.First.{is_lacking, root_value};
ghost use Rattle.text_table.specs.Texts.{with_text};
ghost use Rattle.first_heap.specs.Roots.{AreRootNames};

use ap_base::Bytes;
use class_set::ClassSet;
use graph_model::{NamedValue, Value};
use std::alloc::{AllocError, Global};
use text_table::Texts;

/// Adds a name where it isn't there yet. Want of numbers is want of memory.
fn add_name(alloc: Global, names: &mut Texts, name: &[u8]) -> Result<(), AllocError>
    ensures { OnOk result (names.new ≡ with_text names.old name.now) }
{
    if names.len() >= u32::MAX - 1 {
        return Err(AllocError);
    }
    names.add(alloc, name)?;
    Ok(())
}

/// The names of a graph's roots, found through an ordered map.
pub(crate) fn names_of(alloc: Global, roots: &[NamedValue]) -> Result<Texts, AllocError>
    requires differ { AllPairs (λ (r s : Named). r.name ≢ s.name) roots.now }
    ensures { IfOk result (λ names. names ≡ map (λ (r : Named). r.name) roots.now) }
{
    let mut names = Texts::new(alloc);
    for root in roots {
        add_name(alloc, &mut names, root.name.as_slice())?;
    }
    Ok(names)
}

/// The value of the graph's root with this name; null where there is none.
pub(crate) fn root_value(roots: &[NamedValue], names: &Texts, name: &[u8]) -> Value
    requires names { names.now ≡ map (λ (r : Named). r.name) roots.now }
    ensures { result ≡ root_value roots.now name.now }
{
    match names.place(name) {
        Some(at) => roots[at as usize].value,
        None => Value::Null,
    }
}

/// The names of the set's durable roots, found through an ordered map.
pub(crate) fn root_names(alloc: Global, set: &ClassSet) -> Result<Texts, AllocError>
    ensures { IfOk result (λ names. AreRootNames (facts_of set.now).statics names) }
{
    let mut names = Texts::new(alloc);
    for field in set.statics() {
        if field.is_root {
            let name = set.static_name(alloc, field)?;
            add_name(alloc, &mut names, name.as_slice())?;
        }
    }
    Ok(names)
}

/// Adds the values of those of these roots that the set lacks, in their order.
pub(crate) fn add_lacking(
    values: &mut Vec<Value>,
    own: &Texts,
    roots: &[NamedValue],
) -> Result<(), AllocError>
    ensures { (set : SetFacts) (opening : GraphOf) → AreRootNames set.statics own.now
        → OnOk result (values.new.items ≡ values.old.items
        ++ map (λ (r : Named). r.value) (filter (is_lacking set opening) roots.now)) }
{
    for root in roots {
        if own.place(root.name.as_slice()).is_none() {
            values.push(root.value)?;
        }
    }
    Ok(())
}
