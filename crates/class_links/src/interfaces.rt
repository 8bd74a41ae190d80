//! Interfaces with code.

ghost use Rattle.std.specs.Prelude.{◌≡◌};
ghost use Rattle.std.specs.List.{list_any};
ghost use Rattle.std.specs.Option.{option_copied};
ghost use Rattle.class_links.specs.Links.{has_other_code, is_with_code, with_code};

use crate::names::{is_interface, is_text, name_of};
use class_file::{ClassFile, Method};
use const_pool::Pool;

/// Whether the method has code and isn't named `<clinit>` (JVMS 2.9).
fn has_other_code(pool: &Pool, method: &Method) -> bool
    ensures { result ≡ has_other_code pool.now method.now }
{
    method.code().is_some() && !is_text(pool, method.name, b"<clinit>")
}

/// Whether a method has code and isn't named `<clinit>`.
fn is_coded(pool: &Pool, methods: &[Method]) -> bool
    ensures { result ≡ list_any (has_other_code pool.now) methods.now }
{
    methods.iter().any(|method| has_other_code(pool, method))
}

fn is_with_code(file: &ClassFile) -> bool
    ensures { result ≡ is_with_code file.now }
{
    is_interface(file) && is_coded(&file.pool, file.methods.as_slice())
}

/// The name of the first interface with a method that has code and isn't named `<clinit>`.
pub(crate) fn first_with_code(files: &[ClassFile]) -> Option<&[u8]>
    ensures { option_copied result ≡ with_code files.now }
{
    for file in files {
        if is_with_code(file) {
            return Some(name_of(file));
        }
    }
    None
}
