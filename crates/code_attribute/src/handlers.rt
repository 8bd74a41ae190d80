//! The exception table (JVMS 4.7.3).

ghost use Rattle.std.specs.Prelude.{◌≡◌, ◌++◌, ◌^◌, ◌<◌, length, None, Some, OnOk};
ghost use Rattle.std.specs.List.{flat_map};
ghost use Rattle.parsing.specs.Results.{Gives, many_from};
ghost use Rattle.code_attribute.specs.declared.fault.CodeFault.TheVariants.{OutOfMemory};
ghost use Rattle.code_attribute.specs.Code.{is_handled, catch_at, handler_at, handlers_at, handler_bytes, handlers_bytes};

use crate::code::Handler;
use crate::fault::CodeFault;
use ap_base::ListOf;
use class_items::is_tagged;
use code_form::Starts;
use const_pool::{Pool, Tag};
use parsing::{Reader, put_u16};
use std::alloc::{AllocError, Global};

/// Whether an entry covers instructions, from one on up to another or the end, and its handler is an instruction.
fn is_handled(starts: &Starts, size: usize, start: u16, end: u16, handler: u16) -> bool
    ensures { result ≡ is_handled starts.now size start end handler }
{
    start < end
        && starts.has(u32::from(start))
        && (starts.has(u32::from(end)) || usize::from(end) == size)
        && starts.has(u32::from(handler))
}

/// The index of a class, or 0 for any throwable.
#[tactic(auto, unfolding(crate::specs::Code::catch_at))]
fn catch_at(pool: &Pool, file: &mut Reader) -> Result<u16, CodeFault>
    ensures { Gives None (λ x. (x, file.new)) result (catch_at pool.now file.old) }
{
    let offset = file.at();
    let index = file.u16()?;
    if index == 0 || is_tagged(pool, index, Tag::Class) {
        return Ok(index);
    }
    Err(CodeFault::BadIndex { offset, index })
}

#[tactic(auto, unfolding(crate::specs::Code::handler_at))]
fn handler_at(
    pool: &Pool,
    starts: &Starts,
    size: usize,
    file: &mut Reader,
) -> Result<Handler, CodeFault>
    ensures { Gives None (λ h. (h, file.new)) result
        (handler_at pool.now starts.now size file.old) }
{
    let start = file.u16()?;
    let end = file.u16()?;
    let handler = file.u16()?;
    if !is_handled(starts, size, start, end, handler) {
        return Err(CodeFault::BadForm);
    }
    let catch = catch_at(pool, file)?;
    Ok(Handler {
        start,
        end,
        handler,
        catch,
    })
}

fn some_handlers(
    alloc: Global,
    pool: &Pool,
    starts: &Starts,
    size: usize,
    count: u16,
    file: &mut Reader,
) -> Result<Vec<Handler>, CodeFault>
    ensures { Gives (Some OutOfMemory) (λ v. (v.items, file.new)) result
        (many_from (handler_at pool.now starts.now size) count file.old) }
{
    let mut handlers = Vec::new(alloc);
    for _ in 0..count {
        handlers.push(handler_at(pool, starts, size, file)?)?;
    }
    Ok(handlers)
}

/// The exception table of a code of `size` bytes: a count, and so many entries.
#[tactic(auto, unfolding(crate::specs::Code::handlers_at))]
pub(crate) fn handlers_at(
    alloc: Global,
    pool: &Pool,
    starts: &Starts,
    size: usize,
    file: &mut Reader,
) -> Result<Vec<Handler>, CodeFault>
    ensures { Gives (Some OutOfMemory) (λ v. (v.items, file.new)) result
        (handlers_at pool.now starts.now size file.old) }
{
    let count = file.u16()?;
    some_handlers(alloc, pool, starts, size, count, file)
}

fn put_handler(out: &mut Vec<u8>, handler: &Handler) -> Result<(), AllocError>
    ensures { OnOk result (out.new.items ≡ out.old.items ++ handler_bytes handler.now) }
{
    put_u16(out, handler.start)?;
    put_u16(out, handler.end)?;
    put_u16(out, handler.handler)?;
    put_u16(out, handler.catch)
}

fn put_all(out: &mut Vec<u8>, handlers: &[Handler]) -> Result<(), AllocError>
    ensures { OnOk result (out.new.items ≡ out.old.items ++ flat_map handler_bytes handlers.now) }
{
    for handler in handlers {
        put_handler(out, handler)?;
    }
    Ok(())
}

/// Appends the count of the entries and each of them.
pub(crate) fn put_handlers(out: &mut Vec<u8>, handlers: &ListOf<Handler>) -> Result<(), AllocError>
    requires { length handlers.now < 2 ^ 16 }
    ensures { OnOk result (out.new.items ≡ out.old.items ++ handlers_bytes handlers.now) }
{
    put_u16(out, handlers.len() as u16)?;
    put_all(out, handlers.as_slice())
}
