//! The class files of a class set.

ghost use Rattle.std.specs.Prelude.{◌≡◌};
ghost use Rattle.class_links.specs.Kept.{is_own, is_kept, kept_files};

use crate::names::name_of;
use class_file::ClassFile;

/// Whether the runtime has this name for a class or an annotation of its own.
fn is_own(name: &[u8]) -> bool
    ensures { result ≡ is_own name.now }
{
    name == b"autopersist/DurableRoot".as_slice()
        || name == b"autopersist/Region".as_slice()
        || name == b"autopersist/Unrecoverable".as_slice()
}

fn is_kept(file: &ClassFile) -> bool
    ensures { result ≡ is_kept file.now }
{
    !is_own(name_of(file))
}

/// The files that a class set keeps, in order: those that define the runtime's own class or one of its annotations are left
/// aside.
pub fn keep_files(mut files: Vec<ClassFile>) -> Vec<ClassFile>
    ensures { result.items ≡ kept_files files.items }
{
    files.retain(is_kept);
    files
}
