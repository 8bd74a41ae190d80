//! The class files of a listing.

ghost use Rattle.std.specs.Prelude.{◌≡◌, ◌++◌, [], ◌∷◌, IfOk, OnOk, All};
ghost use Rattle.std.specs.List.{flat_map};
ghost use Rattle.byteorder.specs.Endian.{big_bytes};
ghost use Rattle.class_file.specs.Classes.{CanBeRead, class_in};
ghost use Rattle.parsing.specs.Results.{placed};
ghost use Rattle.listing_lines.specs.Lines.{listing_lines};
ghost use Rattle.listing.specs.Pool.{with_text};
ghost use Rattle.listing.specs.Structure.{Gives, at as at_line};
ghost use Rattle.listing.specs.Classes.{super_from, front_bytes, class_bytes, files_from, refused, classes_in, lower, both};
ghost use Rattle.listing.specs.Classes.{judged, assembled};

use crate::bodies::bodies;
use crate::error::{ListingError, at, next_number};
use crate::handlers::Listed;
use crate::members::{Section, section_bytes};
use crate::pool::Entries;
use crate::roots::roots;
use crate::structure::structure;
use ap_base::Bytes;
use class_file::{ClassFile, ClassRefusal, read_class};
use listing_lines::{Line, ListingFault, read_lines};
use parsing::{put_u16, put_u32};
use std::alloc::{AllocError, Global};

/// The bytes of a class, and the number of its first line.
#[derive(Drop)]
struct ClassBytes {
    line: u32,
    bytes: Bytes,
}

/// The line of the superclass, and its name.
#[tactic(auto, unfolding(crate::specs::Classes::super_from))]
fn super_from(number: u32, lines: &[Line]) -> (u32, &[u8])
    ensures { (result.0, result.1.now) ≡ super_from number lines.now }
{
    let mut number = number;
    let mut rest = lines;
    'lines: loop {
        match rest {
            [] => return (number, &[]),
            [Line::Super(name), ..] => return (number, name.as_slice()),
            [_, behind @ ..] => {
                number = next_number(number);
                rest = behind;
            }
        }
    }
}

fn put_entries(out: &mut Vec<u8>, entries: &[Bytes]) -> Result<(), AllocError>
    ensures { OnOk result (out.new.items ≡ out.old.items ++ flat_map (λ entry. entry) entries.now) }
{
    for entry in entries {
        out.extend_from_slice(entry.as_slice())?;
    }
    Ok(())
}

/// The magic, the version and the constant pool (JVMS 4.1).
fn front(alloc: Global, entries: &Entries) -> Result<Vec<u8>, AllocError>
    ensures { IfOk result (λ v. v.items ≡ front_bytes entries.now) }
{
    let mut out = Vec::new(alloc);
    put_u32(&mut out, 0xCAFE_BABE)?;
    put_u16(&mut out, 0)?;
    put_u16(&mut out, 52)?;
    put_u16(&mut out, entries.count())?;
    put_entries(&mut out, entries.as_slice())?;
    Ok(out)
}

fn put_listed(out: &mut Vec<u8>, found: &Listed) -> Result<(), AllocError>
    ensures { OnOk result
        (out.new.items ≡ out.old.items ++ (big_bytes 2 found.now.count ++ found.now.bytes.items)) }
{
    put_u16(out, found.count)?;
    out.extend_from_slice(&found.bytes)
}

/// The index of a class that a line with a number names.
fn class_index(
    alloc: Global,
    entries: &mut Entries,
    number: u32,
    name: &[u8],
) -> Result<u16, ListingError>
    ensures { Gives (λ index. (index, entries.new)) result
        (placed (at_line number) (with_text 7 name.now entries.old)) }
{
    match entries.text(alloc, 7, name) {
        Ok(index) => Ok(index),
        Err(refusal) => Err(at(number, refusal)),
    }
}

/// The bytes of a class, of which the line with this number is the first.
#[tactic(auto, unfolding(crate::specs::Classes::class_bytes))]
fn class_bytes(
    alloc: Global,
    number: u32,
    access: u16,
    name: &[u8],
    rest: &[Line],
) -> Result<Vec<u8>, ListingError>
    ensures { Gives (λ v. v.items) result (class_bytes number access name.now rest.now) }
{
    let next = next_number(number);
    let mut entries = Entries::new(alloc);
    let this = class_index(alloc, &mut entries, number, name)?;
    let (super_line, super_name) = super_from(next, rest);
    let super_class = class_index(alloc, &mut entries, super_line, super_name)?;
    let interfaces = section_bytes(alloc, &mut entries, Section::Interfaces, next, rest)?;
    let fields = section_bytes(alloc, &mut entries, Section::Fields, next, rest)?;
    let methods = section_bytes(alloc, &mut entries, Section::Methods, next, rest)?;
    let mut out = front(alloc, &entries)?;
    put_u16(&mut out, access)?;
    put_u16(&mut out, this)?;
    put_u16(&mut out, super_class)?;
    put_listed(&mut out, &interfaces)?;
    put_listed(&mut out, &fields)?;
    put_listed(&mut out, &methods)?;
    put_u16(&mut out, 0)?;
    Ok(out)
}

/// The bytes of the classes of all lines.
#[tactic(auto, unfolding(crate::specs::Classes::files_from))]
fn files(alloc: Global, lines: &[Line]) -> Result<Vec<ClassBytes>, ListingError>
    ensures { Gives (λ v. v.items) result (files_from 1 lines.now) }
{
    let mut files = Vec::new(alloc);
    let mut number = 1;
    let mut rest = lines;
    'lines: loop {
        match rest {
            [] => return Ok(files),
            [Line::Class { access, name }, behind @ ..] => {
                let bytes = class_bytes(alloc, number, *access, name.as_slice(), behind)?;
                let bytes = Bytes::from_vec(bytes);
                files.push(ClassBytes {
                    line: number,
                    bytes,
                })?;
                number = next_number(number);
                rest = behind;
            }
            [_, behind @ ..] => {
                number = next_number(number);
                rest = behind;
            }
        }
    }
}

/// A class that the class file format refuses is bad at its first line.
fn refused(number: u32, refusal: ClassRefusal) -> ListingError
    ensures { result ≡ refused number refusal }
{
    let kind = ListingFault::Syntax;
    match refusal {
        ClassRefusal::OutOfMemory => ListingError::OutOfMemory,
        _ => ListingError::Fault { line: number, kind },
    }
}

/// The class that these bytes are.
fn class_in(alloc: Global, file: &ClassBytes) -> Result<ClassFile, ListingError>
    ensures readable { IfOk result CanBeRead }
    ensures exact { Gives (λ c. c) result
        (placed (refused file.now.line) (class_in file.now.bytes)) }
{
    match read_class(alloc, file.bytes.as_slice()) {
        Ok(class) => Ok(class),
        Err(refusal) => Err(refused(file.line, refusal)),
    }
}

/// Adds a class that can be read to others.
fn put_class(classes: &mut Vec<ClassFile>, class: ClassFile) -> Result<(), AllocError>
    requires readable { CanBeRead class }
    requires others { All CanBeRead classes.old.items }
    ensures items { OnOk result (classes.new.items ≡ classes.old.items ++ class ∷ []) }
    ensures all { OnOk result (All CanBeRead classes.new.items) }
{
    classes.push(class)?;
    Ok(())
}

/// The classes that their bytes are.
#[tactic(auto, unfolding(crate::specs::Classes::classes_in))]
fn classes(alloc: Global, files: &[ClassBytes]) -> Result<Vec<ClassFile>, ListingError>
    ensures readable { IfOk result (λ v. All CanBeRead v.items) }
    ensures exact { Gives (λ v. v.items) result (classes_in files.now) }
{
    let mut classes = Vec::new(alloc);
    let mut rest = files;
    'files: loop {
        match rest {
            [] => return Ok(classes),
            [file, behind @ ..] => {
                let class = class_in(alloc, file)?;
                put_class(&mut classes, class)?;
                rest = behind;
            }
        }
    }
}

/// The fault of the lower line, the first of two at one line.
fn lower(first: ListingError, second: ListingError) -> ListingError
    ensures { result ≡ lower first second }
{
    match (first, second) {
        (ListingError::Fault { line: m, .. }, ListingError::Fault { line: n, .. }) => {
            if n < m { second } else { first }
        }
        _ => ListingError::OutOfMemory,
    }
}

/// What two readings give together: what the second gave, or the fault of the lower line.
fn both<T: Drop>(
    first: Result<(), ListingError>,
    second: Result<T, ListingError>,
) -> Result<T, ListingError>
    ensures { result ≡ both first second }
{
    match (first, second) {
        (Ok(()), read) => read,
        (Err(bad), Ok(_)) => Err(bad),
        (Err(bad), Err(worse)) => Err(lower(bad, worse)),
    }
}

/// The first line that is bad whatever its class's constant pool has.
#[tactic(auto, unfolding(crate::specs::Classes::judged))]
fn judged(alloc: Global, lines: &[Line]) -> Result<(), ListingError>
    ensures { Gives (λ none. none) result (judged lines.now) }
{
    both(
        structure(lines),
        both(roots(alloc, lines), bodies(alloc, lines)),
    )
}

/// The class files of a listing, in order.
///
/// A text that is no listing is a `Fault`: the first bad line, counted from 1, and why. A listing without a class gives none.
/// `OutOfMemory` may stand in place of any answer.
#[tactic(auto, unfolding(crate::specs::Classes::assembled))]
pub fn assemble(alloc: Global, text: &[u8]) -> Result<Vec<ClassFile>, ListingError>
    // Each class is one that some bytes are.
    ensures readable { IfOk result (λ classes. All CanBeRead classes.items) }
    // Which answer it is.
    ensures exact { Gives (λ classes. classes.items) result (assembled text.now) }
{
    let lines = read_lines(alloc, text)?;
    let files = both(judged(alloc, &lines), files(alloc, &lines))?;
    classes(alloc, &files)
}
