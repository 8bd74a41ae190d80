//! What stands above each class.

ghost use Rattle.std.specs.Prelude.{◌≡◌, ◌+◌, ◌++◌, ◌<◌, ◌≤◌, ◌^◌, ℕ, length, map, All, IfOk};
ghost use Rattle.graph_walks.specs.Circles.{HasNoCircle};
ghost use Rattle.graph_walks.specs.Order.{visits};
ghost use Rattle.plain_model.specs.Consistent.{super_list};
ghost use Rattle.plain_model.specs.First.{numbers_to};
ghost use Rattle.plain_model.specs.BuiltIn.{built_in_count};
ghost use Rattle.class_links.specs.Links.{Links};
ghost use Rattle.class_set.specs.Linked.{class_names};
ghost use Rattle.class_set.specs.Members.{interface_edges, superclasses_in, supers_of};
ghost use Rattle.class_set.specs.Lookups.{class_edges};
ghost use Rattle.class_set.specs.Tables.{edges_with, reached_above};

use crate::each_once::each_once;
use crate::interfaces::interface_edges;
use crate::supers::superclasses;
use ap_base::ListOf;
use class_file::ClassFile;
use graph_walks::{Reached, visits};
use std::alloc::{AllocError, Global};
use text_table::Texts;

/// The superinterfaces of a class in order, and then its superclass.
fn with_super(
    alloc: Global,
    interfaces: &[u32],
    superclass: Option<u32>,
) -> Result<ListOf<u32>, AllocError>
    ensures { IfOk result (λ supers. supers ≡ interfaces.now ++ super_list superclass) }
{
    let mut supers = interfaces.to_vec(alloc)?;
    if let Some(number) = superclass {
        supers.push(number)?;
    }
    Ok(ListOf::from_vec(supers))
}

/// From each class that isn't an array type to its superinterfaces in order and its superclass.
pub(crate) fn class_edges(
    alloc: Global,
    interfaces: &[ListOf<u32>],
    supers: &[Option<u32>],
) -> Result<Vec<ListOf<u32>>, AllocError>
    requires { length interfaces.now ≡ length supers.now }
    ensures { IfOk result (λ edges. edges.items ≡ edges_with interfaces.now supers.now) }
{
    let mut edges = Vec::new(alloc);
    for class in 0..interfaces.len() {
        edges.push(with_super(alloc, interfaces[class].as_slice(), supers[class])?)?;
    }
    Ok(edges)
}

/// The order in which each class that isn't an array type, and those above it, are looked through
/// for a field (JVMS 5.4.3.2).
pub(crate) fn field_orders(
    alloc: Global,
    edges: &[ListOf<u32>],
) -> Result<Vec<ListOf<u32>>, AllocError>
    requires few { length edges.now < 2 ^ 32 }
    requires there { All (λ next. All (λ (v : ℕ). v < length edges.now) next) edges.now }
    requires no_circle { HasNoCircle edges.now }
    ensures { IfOk result (λ orders. orders.items
        ≡ map (visits edges.now) (numbers_to (length edges.now))) }
{
    let mut orders = Vec::new(alloc);
    for class in 0..edges.len() as u32 {
        orders.push(ListOf::from_vec(visits(alloc, edges, class)?))?;
    }
    Ok(orders)
}

/// The types above each class that isn't an array type: itself, its superclasses, and all their
/// superinterfaces.
pub(crate) fn types_above(
    alloc: Global,
    interfaces: &[ListOf<u32>],
    supers: &[Option<u32>],
) -> Result<Vec<Reached>, AllocError>
    requires few { length supers.now < 2 ^ 32 }
    requires there { All (λ next. All (λ (v : ℕ). v < length interfaces.now) next) interfaces.now }
    requires no_circle { HasNoCircle interfaces.now }
    requires within { (n : ℕ) → n < length supers.now
        → All (λ (v : ℕ). v < length interfaces.now) (superclasses_in supers.now (length supers.now) n) }
    ensures { IfOk result (λ above. above.items
        ≡ map (reached_above interfaces.now supers.now) (numbers_to (length supers.now))) }
{
    let mut above = Vec::new(alloc);
    for class in 0..supers.len() as u32 {
        let chain = superclasses(alloc, supers, class)?;
        above.push(Reached::from(alloc, interfaces, chain.as_slice())?)?;
    }
    Ok(above)
}

/// Of each class that isn't an array type, the order in which it and those above it are looked
/// through for a field, and the types above it. Takes time for each superinterface that a file
/// names, and time and memory for each class, each class above it, and each of the different
/// superinterfaces that those name.
pub(crate) fn hierarchy(
    alloc: Global,
    files: &[ClassFile],
    names: &Texts,
    supers: &[Option<u32>],
) -> Result<(Vec<ListOf<u32>>, Vec<Reached>), AllocError>
    requires few { length files.now ≤ 4096 }
    requires links { Links files.now }
    requires names { names.now ≡ class_names files.now }
    requires supers { supers.now ≡ supers_of files.now }
    ensures orders { IfOk result (λ tables. tables.0.items
        ≡ map (visits (class_edges files.now)) (numbers_to (length files.now + built_in_count))) }
    ensures above { IfOk result (λ tables. tables.1.items
        ≡ map (reached_above (interface_edges files.now) (supers_of files.now)) (numbers_to (length files.now + built_in_count))) }
{
    let interfaces = interface_edges(alloc, files, names)?;
    let edges = class_edges(alloc, interfaces.as_slice(), supers)?;
    let interfaces_once = each_once(alloc, interfaces.as_slice())?;
    let above = types_above(alloc, interfaces_once.as_slice(), supers)?;
    let edges_once = each_once(alloc, edges.as_slice())?;
    let orders = field_orders(alloc, edges_once.as_slice())?;
    Ok((orders, above))
}
