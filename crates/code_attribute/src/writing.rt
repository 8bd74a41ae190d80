//! Writing a Code attribute's content.

ghost use Rattle.std.specs.Prelude.{◌≡◌, ◌++◌, OnOk};
ghost use Rattle.code_attribute.specs.Code.{Fits, code_attribute_bytes};

use crate::code::Code;
use crate::handlers::put_handlers;
use class_items::put_attributes;
use parsing::{put_u16, put_u32};
use std::alloc::AllocError;

/// Appends the content of a Code attribute as it stands in a class file (JVMS 4.7.3). It fails only for want of memory.
pub fn put_code_attribute(out: &mut Vec<u8>, code: &Code) -> Result<(), AllocError>
    requires { Fits code.now }
    ensures { OnOk result (out.new.items ≡ out.old.items ++ code_attribute_bytes code.now) }
{
    let bytes = code.bytes.as_slice();
    put_u16(out, code.max_stack)?;
    put_u16(out, code.max_locals)?;
    put_u32(out, bytes.len() as u32)?;
    out.extend_from_slice(bytes)?;
    put_handlers(out, &code.handlers)?;
    put_attributes(out, &code.attributes)
}
