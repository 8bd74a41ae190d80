//! The names that a class file gives, and the flags that linking looks at.

ghost use Rattle.std.specs.Prelude.{◌≡◌};
ghost use Rattle.class_file.specs.Members.{is_text};
ghost use Rattle.class_links.specs.Names.{class_name, name_of, super_of, is_final, is_interface};

use class_file::ClassFile;
use const_pool::Pool;

/// What linking looks at in a class's flags.
#[derive(Clone, Copy)]
pub(crate) struct Flags {
    pub is_interface: bool,
    pub is_final: bool,
}

/// The name of the class at an index of a pool, empty where no Class entry is there.
pub fn class_name(pool: &Pool, index: u16) -> &[u8]
    ensures { result.now ≡ class_name pool.now index }
{
    match pool.class_name(index) {
        Some(name) => name.as_slice(),
        None => &[],
    }
}

/// The name of the file's class.
pub fn name_of(file: &ClassFile) -> &[u8]
    ensures { result.now ≡ name_of file.now }
{
    class_name(&file.pool, file.this_class)
}

/// The name of its superclass.
pub fn super_of(file: &ClassFile) -> &[u8]
    ensures { result.now ≡ super_of file.now }
{
    class_name(&file.pool, file.super_class)
}

/// Whether the text at an index is this one.
pub(crate) fn is_text(pool: &Pool, index: u16, text: &[u8]) -> bool
    ensures { result ≡ is_text pool.now index text.now }
{
    match pool.utf8(index) {
        Some(found) => found.as_slice() == text,
        None => false,
    }
}

/// ACC_INTERFACE (JVMS table 4.1-B).
pub fn is_interface(file: &ClassFile) -> bool
    ensures { result ≡ is_interface file.now }
{
    file.access & 0x0200 != 0
}

/// ACC_FINAL (JVMS table 4.1-B).
pub fn is_final(file: &ClassFile) -> bool
    ensures { result ≡ is_final file.now }
{
    file.access & 0x0010 != 0
}
