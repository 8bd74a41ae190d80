//! Reading a Code attribute's content from front to back.

ghost use Rattle.std.specs.Prelude.{◌≡◌, ◌+◌, ◌^◌, ◌<◌, length, All, IfOk, None, Some, Ok};
ghost use Rattle.class_items.specs.Kinds.{AreKindsOf};
ghost use Rattle.parsing.specs.Results.{Gives, placed};
ghost use Rattle.code_form.specs.declared.ins.Placed.{Placed as OnePlaced};
ghost use Rattle.code_form.specs.Reading.{code_of};
ghost use Rattle.code_attribute.specs.declared.fault.CodeFault.TheVariants.{OutOfMemory};
ghost use Rattle.code_attribute.specs.Code.{Fits, of_code, is_wrong_size, code_bytes_at, handlers_at, code_attribute_at};
ghost use Rattle.code_attribute.specs.Code.{code_attribute_bytes};

use crate::code::{Code, Handler};
use crate::fault::CodeFault;
use crate::handlers::handlers_at;
use crate::operands::first_wrong_operand;
use ap_base::{Bytes, ListOf};
use class_items::{DescriptorKinds, attributes};
use code_form::{Placed, Starts, read_code};
use const_pool::Pool;
use parsing::Reader;
use std::alloc::Global;

/// The most bytes of a code (JVMS 4.7.3).
const LONGEST: u32 = 65535;

fn is_wrong_size(size: u32) -> bool
    ensures { result ≡ is_wrong_size size }
{
    size == 0 || size > LONGEST
}

/// A length, and so many bytes of code.
#[tactic(auto, unfolding(crate::specs::Code::code_bytes_at))]
fn code_bytes_at<'a>(file: &mut Reader<'a>) -> Result<&'a [u8], CodeFault>
    ensures { Gives None (λ x. (x.now, file.new)) result (code_bytes_at file.old) }
{
    let size = file.u32()?;
    if is_wrong_size(size) {
        return Err(CodeFault::BadForm);
    }
    Ok(file.field(size as usize)?)
}

fn instructions(alloc: Global, bytes: &[u8]) -> Result<Vec<Placed>, CodeFault>
    ensures within { IfOk result (λ v. All (λ (p : OnePlaced). p.pc < length bytes.now) v.items) }
    ensures read { Gives (Some OutOfMemory) (λ v. v.items) result
        (placed of_code (code_of bytes.now)) }
{
    Ok(read_code(alloc, bytes)?)
}

fn handlers(
    alloc: Global,
    pool: &Pool,
    code: &[Placed],
    size: usize,
    file: &mut Reader,
) -> Result<Vec<Handler>, CodeFault>
    requires { All (λ (p : OnePlaced). p.pc < size) code.now }
    ensures { Gives (Some OutOfMemory) (λ v. (v.items, file.new)) result
        (handlers_at pool.now code.now size file.old) }
{
    let starts = Starts::of(alloc, code, size)?;
    handlers_at(alloc, pool, &starts, size, file)
}

#[tactic(auto, unfolding(crate::specs::Code::code_attribute_at))]
fn code_attribute_at(
    alloc: Global,
    pool: &Pool,
    kinds: &DescriptorKinds,
    file: &mut Reader,
) -> Result<Code, CodeFault>
    requires { AreKindsOf pool.now kinds.now }
    ensures { Gives (Some OutOfMemory) (λ c. c) result (code_attribute_at pool.now file.old) }
{
    let max_stack = file.u16()?;
    let max_locals = file.u16()?;
    let bytes = code_bytes_at(file)?;
    let code = instructions(alloc, bytes)?;
    if let Some(fault) = first_wrong_operand(pool, kinds, &code) {
        return Err(fault);
    }
    let handlers = handlers(alloc, pool, &code, bytes.len(), file)?;
    let attributes = attributes(alloc, pool, file)?;
    if !file.is_ended() {
        return Err(CodeFault::BadForm);
    }
    Ok(Code {
        max_stack,
        max_locals,
        bytes: Bytes::copy(alloc, bytes)?,
        instructions: ListOf::from_vec(code),
        handlers: ListOf::from_vec(handlers),
        attributes,
    })
}

/// Reads the content of a Code attribute, which begins at an offset of the file (JVMS 4.7.3).
///
/// The first fault is the answer, from front to back: the instructions, then the entries that they name, in order, then
/// the exception table, entry by entry, and the attributes. `kinds` are the kinds of the pool's texts. `OutOfMemory` may
/// stand in place of any answer.
pub fn read_code_attribute(
    alloc: Global,
    pool: &Pool,
    kinds: &DescriptorKinds,
    at: usize,
    content: &[u8],
) -> Result<Code, CodeFault>
    requires within { at + length content.now < 2 ^ 64 }
    requires kinds { AreKindsOf pool.now kinds.now }
    // What is read is spelled so, each byte of it.
    ensures found { IfOk result (λ c. content.now ≡ code_attribute_bytes c) }
    ensures fits { IfOk result Fits }
    ensures instructions { IfOk result (λ c. code_of c.bytes ≡ Ok c.instructions) }
    // Which answer it is.
    ensures exact { Gives (Some OutOfMemory) (λ c. c) result
        (code_attribute_at pool.now (at, content.now)) }
{
    code_attribute_at(alloc, pool, kinds, &mut Reader::new(at, content))
}
