// What was found in an image is made ready for a class set. The image isn't touched.
ghost use Rattle.std.specs.Prelude.{◌≡◌, ◌≤◌, ℕ, List, All, length, map, drop, IfErr, OnErr, OnOk};
ghost use Rattle.graph_model.specs.declared.types.NamedValue.{NamedValue as SomeRoot};
ghost use Rattle.class_set.specs.Facts.{facts_of};
ghost use Rattle.class_set.specs.Sets.{IsLinked, made_of};
ghost use Rattle.image_meaning.specs.Entries.{DirectoryEntry, IsShape};
ghost use Rattle.directories.specs.ClassSets.{IsPlannedFor};
ghost use Rattle.directories.specs.Kept.{Continues};
ghost use Rattle.set_opening.specs.Fitted.{AllAgree, IsFitted, IsPlanFault, IsShapeFault, IsUnfit, with_null_roots};

use crate::numbering::number_arrays;
use crate::unopened::Unopened;
use ap_base::Bytes;
use class_set::ClassSet;
use directories::{Directory, PlanFault};
use graph_model::{NamedValue, Value};
use set_directory::SetClasses;
use shared_graph::SharedGraph;
use std::alloc::{AllocError, Global};

/// Makes the directory and the graph of an image ready for the class set: the shapes are checked,
/// the directory's array types get numbers, and what the directory lacks of the set's entries is
/// planned. The graph has the roots of these too, and they are null.
pub(crate) fn prepare(
    alloc: Global,
    set: &mut ClassSet,
    directory: &mut Directory,
    graph: &mut SharedGraph,
) -> Result<(), Unopened>
    requires shapes { All IsShape directory.old.shapes }
    requires roots { map (λ (root : SomeRoot). root.name) graph.old.roots ≡ directory.old.roots }
    ensures fitted { OnOk result
        (IsFitted set.old set.new directory.old directory.new graph.old graph.new) }
    ensures continues { (had : List DirectoryEntry) → Continues had directory.old
        → OnOk result (Continues had directory.new) }
    ensures unfit { IfErr result (IsUnfit set.old set.new directory.old) }
{
    check_shapes(alloc, set, directory)?;
    number_arrays(alloc, set, directory)?;
    what_sets_keep(set);
    plan_missing(alloc, set, directory)?;
    let had = graph.roots().len();
    add_null_roots(alloc, graph, behind(directory.roots(), had))?;
    Ok(())
}

/// Checks that each shape of the directory agrees with the set.
fn check_shapes(alloc: Global, set: &ClassSet, directory: &Directory) -> Result<(), Unopened>
    ensures agree { OnOk result (AllAgree (facts_of set.now) directory.now.shapes) }
    ensures other { IfErr result (IsShapeFault (facts_of set.now) directory.now.shapes) }
{
    match directory.agree(&SetClasses::of(set)) {
        Ok(()) => Ok(()),
        Err(n) => {
            let name = Bytes::copy(alloc, directory.shapes()[n as usize].name.as_slice())?;
            Err(Unopened::ShapeChanged { name })
        }
    }
}

/// Plans what the directory lacks of the set's entries.
fn plan_missing(alloc: Global, set: &ClassSet, directory: &mut Directory) -> Result<(), Unopened>
    ensures planned { OnOk result
        (IsPlannedFor (facts_of set.now) (made_of set.now) directory.old directory.new) }
    ensures continues { (had : List DirectoryEntry) → Continues had directory.old
        → OnOk result (Continues had directory.new) }
    ensures refused { IfErr result (IsPlanFault set.now directory.old) }
{
    match directory.plan(alloc, &SetClasses::of(set)) {
        Ok(()) => Ok(()),
        Err(PlanFault::Full(full)) => Err(Unopened::Full(full)),
        Err(PlanFault::OutOfMemory) => Err(Unopened::OutOfMemory),
    }
}

/// Each class set is linked, and of few files. Does nothing.
fn what_sets_keep(set: &ClassSet)
    ensures linked { IsLinked set.now }
    ensures few { length set.now.files ≤ 4096 }
{
    let _shapes = set.shapes();
    let _count = set.file_count();
}

/// The names behind the first so many.
fn behind(names: &[Bytes], had: usize) -> &[Bytes]
    requires { had ≤ length names.now }
    ensures { result.now ≡ drop had names.now }
{
    &names[had..]
}

/// Adds roots of these names, which are null.
fn add_null_roots(alloc: Global, graph: &mut SharedGraph, names: &[Bytes]) -> Result<(), AllocError>
    ensures { OnOk result (graph.new ≡ with_null_roots graph.old names.now) }
{
    for name in names {
        let name = Bytes::copy(alloc, name.as_slice())?;
        let value = Value::Null;
        graph.add_root(NamedValue { name, value })?;
    }
    Ok(())
}
