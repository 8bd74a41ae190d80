// Array types of a directory get numbers in a class set.
ghost use Rattle.std.specs.Prelude.{◌≡◌, List, All, OnErr, OnOk};
ghost use Rattle.graph_model.specs.declared.types.Shape.{Shape as SomeShape};
ghost use Rattle.image_meaning.specs.Entries.{IsShape, is_array_name};
ghost use Rattle.set_opening.specs.Arrays.{with_array_of, with_arrays_of};

use class_set::ClassSet;
use directories::Directory;
use graph_model::Shape;
use std::alloc::{AllocError, Global};

/// Gives each array type of the directory that has no number in the set yet the next one, in the
/// directory's order. An `Err` comes after the first ones of these.
pub(crate) fn number_arrays(
    alloc: Global,
    set: &mut ClassSet,
    directory: &Directory,
) -> Result<(), AllocError>
    requires shapes { All IsShape directory.now.shapes }
    ensures numbered { OnOk result (set.new ≡ with_arrays_of set.old directory.now.shapes) }
    ensures some { OnErr result
        ((shapes : List SomeShape) × (set.new ≡ with_arrays_of set.old shapes)) }
{
    for shape in directory.shapes() {
        number_array_of(alloc, set, shape)?;
    }
    Ok(())
}

/// Gives the shape's array type, if it is one's, the next number where it has none.
fn number_array_of(alloc: Global, set: &mut ClassSet, shape: &Shape) -> Result<(), AllocError>
    requires { IsShape shape.now }
    ensures numbered { OnOk result (set.new ≡ with_array_of set.old shape.now) }
    ensures same { OnErr result (set.new ≡ set.old) }
{
    let name = shape.name.as_slice();
    if is_array_name(name) {
        set.number_array(alloc, name)?;
    }
    Ok(())
}

fn is_array_name(name: &[u8]) -> bool
    ensures { result ≡ is_array_name name.now }
{
    name.len() > 0 && name[0] == b'['
}
