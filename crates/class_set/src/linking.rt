//! Linking.

ghost use Rattle.std.specs.Prelude.{◌≡◌, ◌≤◌, length, All, IfOk, OnOk, IfErr};
ghost use Rattle.class_file.specs.Classes.{CanBeRead};
ghost use Rattle.class_links.specs.Links.{Links, IsBroken};
ghost use Rattle.class_links.specs.Kept.{kept_files};
ghost use Rattle.plain_model.specs.Consistent.{IsConsistent};
ghost use Rattle.class_set.specs.ArrayTypes.{linked_from};
ghost use Rattle.class_set.specs.Facts.{facts_of};
ghost use Rattle.class_set.specs.Sets.{IsLinked};

use crate::ClassSet;
use class_file::ClassFile;
use class_links::{LinkRefusal, check_links, keep_files};
use std::alloc::Global;

/// Links class files, at most 4,096 and each one that can be read. Those of the runtime's own class
/// and annotations are left aside. The others are refused exactly where a condition of linking is
/// broken, by the first one (JVMS 5.3.5), or for want of memory.
///
/// Takes time close to linear in the files' bytes, but for three things. What stands above classes
/// takes a step for each class and each different superinterface that a class above it names. A
/// superinterface's name is read each time that a file names it, and the text of a constant for
/// each static field that has it.
pub fn link(alloc: Global, classes: Vec<ClassFile>) -> Result<ClassSet, LinkRefusal>
    requires few { length classes.items ≤ 4096 }
    requires readable { All CanBeRead classes.items }
    ensures set { IfOk result (λ set. set ≡ linked_from (kept_files classes.items)) }
    ensures links { OnOk result (Links (kept_files classes.items)) }
    ensures linked { IfOk result IsLinked }
    ensures consistent { IfOk result (λ set. IsConsistent (facts_of set)) }
    ensures broken { IfErr result (IsBroken (kept_files classes.items)) }
{
    let files = keep_files(classes);
    check_links(alloc, files.as_slice())?;
    Ok(ClassSet::of(alloc, files)?)
}
