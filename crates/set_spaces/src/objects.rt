// The objects that a run begins with beside an image's.
ghost use Rattle.std.specs.Prelude.{◌≡◌, IfOk};
ghost use Rattle.class_set.specs.Facts.{facts_of};
ghost use Rattle.set_spaces.specs.Objects.{AreObjectsOf};

use class_set::ClassSet;
use first_spaces::FirstObjects;
use std::alloc::{AllocError, Global};

/// The place of PrintStream among the built-in classes.
const PRINT_STREAM: u32 = 1;

/// The object of `System.out`, the array of arguments and the literals, by their classes.
pub(crate) fn objects_of(alloc: Global, set: &ClassSet) -> Result<FirstObjects, AllocError>
    ensures { IfOk result (λ objects. AreObjectsOf (facts_of set.now) objects) }
{
    Ok(FirstObjects {
        stream: set.file_count() as u32 + PRINT_STREAM,
        arguments: set.array_named(b"[Ljava/lang/String;"),
        string: set.known().string,
        literals: set.literals(alloc)?,
    })
}
