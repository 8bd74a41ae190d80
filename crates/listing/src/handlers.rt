//! The exception table of a method (JVMS 4.7.3).

ghost use Rattle.std.specs.Prelude.{◌≡◌, ◌<◌, ◌++◌, Some, IfOk, OnOk};
ghost use Rattle.std.specs.Option.{option_map};
ghost use Rattle.listing_lines.specs.Reading.{Answers, Gives as LineGives};
ghost use Rattle.listing.specs.Structure.{Gives};
ghost use Rattle.listing.specs.Members.{handler_places, catch_index, handler_bytes, handler_item, counted, item_bytes};
ghost use Rattle.listing.specs.Members.{handlers_from};

use crate::error::{ListingError, at, next_number};
use crate::labels::{is_end, pc_of, target};
use crate::marks::Marks;
use crate::pool::Entries;
use ap_base::Bytes;
use listing_lines::{Line, LineRefusal, ListingFault};
use parsing::put_u16;
use std::alloc::{AllocError, Global};

const UNKNOWN_LABEL: LineRefusal = LineRefusal::Fault(ListingFault::UnknownLabel);

/// The items of a class file that are listed behind their count.
#[derive(Drop)]
pub(crate) struct Listed {
    pub(crate) count: u16,
    pub(crate) bytes: Vec<u8>,
}

/// Where an entry's code begins and ends, and where its handler begins. It covers code, and its handler is an instruction.
#[tactic(auto, unfolding(crate::specs::Members::handler_places))]
pub(crate) fn handler_places(
    marks: &Marks,
    start: &[u8],
    end: &[u8],
    handler: &[u8],
) -> Result<(u32, u32, u32), LineRefusal>
    ensures order { IfOk result (λ places. places.0 < places.1) }
    ensures places { Answers (λ places. places) result
        (handler_places marks.now.marks.items marks.now.size start.now end.now handler.now) }
{
    let first = pc_of(start, &marks.marks).ok_or(UNKNOWN_LABEL)?;
    let past = pc_of(end, &marks.marks).ok_or(UNKNOWN_LABEL)?;
    let handles = target(marks, handler)?;
    if first < past {
        Ok((first, past, handles))
    } else {
        Err(LineRefusal::Fault(ListingFault::Syntax))
    }
}

/// The index of the class that an entry catches, 0 for any throwable.
fn catch_index(
    alloc: Global,
    entries: &mut Entries,
    class: &Option<Bytes>,
) -> Result<u16, LineRefusal>
    ensures { LineGives (λ index. (index, entries.new)) result (catch_index class.now entries.old) }
{
    match class {
        Some(name) => entries.text(alloc, 7, name.as_slice()),
        None => Ok(0),
    }
}

#[tactic(auto, unfolding(crate::specs::Members::handler_bytes))]
fn handler_bytes(
    alloc: Global,
    entries: &mut Entries,
    marks: &Marks,
    class: &Option<Bytes>,
    start: &[u8],
    end: &[u8],
    handler: &[u8],
) -> Result<Vec<u8>, LineRefusal>
    ensures { LineGives (λ v. (Some v.items, entries.new)) result
        (handler_bytes marks.now.marks.items marks.now.size class.now start.now end.now handler.now
        entries.old) }
{
    let (start, end, handler) = handler_places(marks, start, end, handler)?;
    if end > 65_535 || handler > 65_535 {
        return Err(LineRefusal::Fault(ListingFault::TooLarge));
    }
    let catch = catch_index(alloc, entries, class)?;
    let mut out = Vec::new(alloc);
    put_u16(&mut out, start as u16)?;
    put_u16(&mut out, end as u16)?;
    put_u16(&mut out, handler as u16)?;
    put_u16(&mut out, catch)?;
    Ok(out)
}

/// What a line gives to the exception table.
fn handler_item(
    alloc: Global,
    entries: &mut Entries,
    marks: &Marks,
    line: &Line,
) -> Result<Option<Vec<u8>>, LineRefusal>
    ensures { LineGives (λ item. (option_map (λ v. v.items) item, entries.new)) result
        (handler_item marks.now.marks.items marks.now.size line.now entries.old) }
{
    match line {
        Line::Catch {
            class,
            start,
            end,
            handler,
        } => {
            let (start, end, handler) = (start.as_slice(), end.as_slice(), handler.as_slice());
            let bytes = handler_bytes(alloc, entries, marks, class, start, end, handler)?;
            Ok(Some(bytes))
        }
        _ => Ok(None),
    }
}

/// One more item, if it is one: a class file counts at most 65,535.
pub(crate) fn counted(count: u16, item: &Option<Vec<u8>>) -> Result<u16, LineRefusal>
    ensures { result ≡ counted count (option_map (λ v. v.items) item.now) }
{
    match item {
        None => Ok(count),
        Some(_) => {
            if count == 65_535 {
                Err(LineRefusal::Fault(ListingFault::TooLarge))
            } else {
                Ok(count + 1)
            }
        }
    }
}

/// Appends an item, if it is one.
pub(crate) fn put_item(out: &mut Vec<u8>, item: &Option<Vec<u8>>) -> Result<(), AllocError>
    ensures { OnOk result
        (out.new.items ≡ out.old.items ++ item_bytes (option_map (λ v. v.items) item.now)) }
{
    match item {
        None => Ok(()),
        Some(bytes) => out.extend_from_slice(bytes),
    }
}

/// The exception table of a method, of which these are the lines behind its first.
#[tactic(auto, unfolding(crate::specs::Members::handlers_from))]
pub(crate) fn handlers(
    alloc: Global,
    entries: &mut Entries,
    marks: &Marks,
    number: u32,
    lines: &[Line],
) -> Result<Listed, ListingError>
    ensures { Gives (λ l. (l.count, l.bytes.items, entries.new)) result
        (handlers_from marks.now.marks.items marks.now.size number 0 lines.now entries.old) }
{
    let mut count = 0;
    let mut bytes = Vec::new(alloc);
    let mut number = number;
    let mut rest = lines;
    'lines: loop {
        match rest {
            [] => return Ok(Listed { count, bytes }),
            [line, behind @ ..] => {
                if is_end(line) {
                    return Ok(Listed { count, bytes });
                }
                let item = match handler_item(alloc, entries, marks, line) {
                    Ok(item) => item,
                    Err(refusal) => return Err(at(number, refusal)),
                };
                count = match counted(count, &item) {
                    Ok(next) => next,
                    Err(refusal) => return Err(at(number, refusal)),
                };
                put_item(&mut bytes, &item)?;
                number = next_number(number);
                rest = behind;
            }
        }
    }
}
