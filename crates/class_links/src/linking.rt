//! The conditions of linking.

ghost use Rattle.std.specs.Prelude.{◌≡◌, ◌≤◌, None, length, OnOk, IfErr};
ghost use Rattle.class_links.specs.Links.{Links, IsBroken, HasRightSupers, doubled, super_edges, with_code};
ghost use Rattle.graph_walks.specs.Circles.{HasNoCircle};

use crate::LinkRefusal;
use crate::classes::Classes;
use crate::interfaces::first_with_code;
use crate::names::name_of;
use crate::supers::Fault;
use ap_base::Bytes;
use class_file::ClassFile;
use graph_walks::first_on_circle;
use std::alloc::Global;

/// Checks that class files, at most 4,096, link together with the built-in classes: says the first condition that they break, if any.
/// Files that a class set leaves aside, those of the runtime's own class and annotations, are not to be among them.
pub fn check_links(alloc: Global, files: &[ClassFile]) -> Result<(), LinkRefusal>
    requires few { length files.now ≤ 4096 }
    ensures links { OnOk result (Links files.now) }
    ensures broken { IfErr result (IsBroken files.now) }
{
    let classes = Classes::of(alloc, files)?;
    check_supers(alloc, &classes)?;
    check_circles(alloc, &classes)?;
    check_interfaces(alloc, files)
}

/// Checks that superclasses and superinterfaces are there and of the right sort.
fn check_supers(alloc: Global, classes: &Classes) -> Result<(), LinkRefusal>
    requires { doubled classes.now ≡ None }
    ensures right { OnOk result (HasRightSupers classes.now) }
    ensures broken { IfErr result (IsBroken classes.now) }
{
    let missing = classes.first_faulty(Fault::Missing, Some(Fault::Missing));
    if let Some((class, super_class)) = missing {
        return Err(LinkRefusal::MissingSuper {
            class: Bytes::copy(alloc, class)?,
            super_class: Bytes::copy(alloc, super_class)?,
        });
    }
    let misplaced = classes.first_faulty(Fault::Interface, Some(Fault::NoInterface));
    if let Some((class, super_class)) = misplaced {
        return Err(LinkRefusal::SuperKind {
            class: Bytes::copy(alloc, class)?,
            super_class: Bytes::copy(alloc, super_class)?,
        });
    }
    if let Some((class, super_class)) = classes.first_faulty(Fault::Final, None) {
        return Err(LinkRefusal::FinalSuper {
            class: Bytes::copy(alloc, class)?,
            super_class: Bytes::copy(alloc, super_class)?,
        });
    }
    Ok(())
}

/// Checks that no class is its own superclass or superinterface, directly or not.
fn check_circles(alloc: Global, classes: &Classes) -> Result<(), LinkRefusal>
    requires few { length classes.now ≤ 4096 }
    requires right { HasRightSupers classes.now }
    ensures none { OnOk result (HasNoCircle (super_edges classes.now)) }
    ensures broken { IfErr result (IsBroken classes.now) }
{
    let edges = classes.super_edges(alloc)?;
    if let Some(number) = first_on_circle(alloc, edges.as_slice())? {
        let name = name_of(&classes.files()[number as usize]);
        return Err(LinkRefusal::CircularSuper {
            class: Bytes::copy(alloc, name)?,
        });
    }
    Ok(())
}

/// Checks that interfaces have no code but that of their initialisers.
fn check_interfaces(alloc: Global, files: &[ClassFile]) -> Result<(), LinkRefusal>
    requires right { HasRightSupers files.now }
    requires no_circle { HasNoCircle (super_edges files.now) }
    ensures none { OnOk result (with_code files.now ≡ None) }
    ensures broken { IfErr result (IsBroken files.now) }
{
    if let Some(name) = first_with_code(files) {
        return Err(LinkRefusal::InterfaceCode {
            class: Bytes::copy(alloc, name)?,
        });
    }
    Ok(())
}
