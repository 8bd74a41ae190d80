//! The interfaces, fields and methods of a class (JVMS 4.1, 4.5, 4.6).

ghost use Rattle.std.specs.Prelude.{◌≡◌, ◌≤◌, length, codes, IfOk};
ghost use Rattle.byteorder.specs.Endian.{big_bytes};
ghost use Rattle.std.specs.Option.{option_map};
ghost use Rattle.parsing.specs.Results.{placed};
ghost use Rattle.listing_lines.specs.Reading.{Gives as LineGives};
ghost use Rattle.listing.specs.Structure.{Gives, at as at_line};
ghost use Rattle.listing.specs.Pool.{with_utf8};
ghost use Rattle.listing.specs.Members.{member_head, with_annotations_name, with_root_name, root_bytes, root_attribute};
ghost use Rattle.listing.specs.Members.{field_attributes, field_bytes, code_content, attribute_bytes, code_attribute};
ghost use Rattle.listing.specs.Members.{method_attributes, interface_item, field_item, method_item, item_of, begins_class};
ghost use Rattle.listing.specs.Members.{section_from};

use crate::bodies::code;
use crate::error::{ListingError, at, next_number};
use crate::handlers::{Listed, counted, handlers, put_item};
use crate::labels::marks;
use crate::pool::Entries;
use listing_lines::{Line, LineRefusal, ListingFault};
use parsing::{put_u16, put_u32};
use std::alloc::{AllocError, Global};

/// What a class file lists behind a count.
#[derive(Clone, Copy)]
pub(crate) enum Section {
    Interfaces,
    Fields,
    Methods,
}

/// What a field or a method begins with.
#[tactic(auto, unfolding(crate::specs::Members::member_head))]
fn member_head(
    alloc: Global,
    entries: &mut Entries,
    access: u16,
    name: &[u8],
    descriptor: &[u8],
) -> Result<Vec<u8>, LineRefusal>
    ensures { LineGives (λ v. (v.items, entries.new)) result
        (member_head access name.now descriptor.now entries.old) }
{
    let name = entries.utf8(alloc, name)?;
    let descriptor = entries.utf8(alloc, descriptor)?;
    let mut out = Vec::new(alloc);
    put_u16(&mut out, access)?;
    put_u16(&mut out, name)?;
    put_u16(&mut out, descriptor)?;
    Ok(out)
}

#[tactic(auto, unfolding(crate::specs::Members::with_annotations_name))]
fn annotations_name(alloc: Global, entries: &mut Entries) -> Result<u16, LineRefusal>
    ensures { LineGives (λ index. (index, entries.new)) result (with_annotations_name entries.old) }
{
    entries.utf8(alloc, b"RuntimeInvisibleAnnotations")
}

#[tactic(auto, unfolding(crate::specs::Members::with_root_name))]
fn root_name(alloc: Global, entries: &mut Entries) -> Result<u16, LineRefusal>
    ensures { LineGives (λ index. (index, entries.new)) result (with_root_name entries.old) }
{
    entries.utf8(alloc, b"Lautopersist/DurableRoot;")
}

/// One attribute, of one annotation without pairs.
fn root_bytes(alloc: Global, name: u16, mark: u16) -> Result<Vec<u8>, AllocError>
    ensures { IfOk result (λ v. v.items ≡ root_bytes name mark) }
{
    let mut out = Vec::new(alloc);
    put_u16(&mut out, 1)?;
    put_u16(&mut out, name)?;
    put_u32(&mut out, 6)?;
    put_u16(&mut out, 1)?;
    put_u16(&mut out, mark)?;
    put_u16(&mut out, 0)?;
    Ok(out)
}

/// The attribute with the annotation of a durable root (JVMS 4.7.17).
#[tactic(auto, unfolding(crate::specs::Members::root_attribute))]
fn root_attribute(alloc: Global, entries: &mut Entries) -> Result<Vec<u8>, LineRefusal>
    ensures { LineGives (λ v. (v.items, entries.new)) result (root_attribute entries.old) }
{
    let name = annotations_name(alloc, entries)?;
    let mark = root_name(alloc, entries)?;
    Ok(root_bytes(alloc, name, mark)?)
}

fn no_attributes(alloc: Global) -> Result<Vec<u8>, AllocError>
    ensures { IfOk result (λ v. v.items ≡ big_bytes 2 0) }
{
    let mut out = Vec::new(alloc);
    put_u16(&mut out, 0)?;
    Ok(out)
}

fn field_attributes(
    alloc: Global,
    entries: &mut Entries,
    root: bool,
) -> Result<Vec<u8>, LineRefusal>
    ensures { LineGives (λ v. (v.items, entries.new)) result (field_attributes root entries.old) }
{
    if root {
        root_attribute(alloc, entries)
    } else {
        Ok(no_attributes(alloc)?)
    }
}

#[tactic(auto, unfolding(crate::specs::Members::field_bytes))]
fn field_bytes(
    alloc: Global,
    entries: &mut Entries,
    access: u16,
    name: &[u8],
    descriptor: &[u8],
    root: bool,
) -> Result<Vec<u8>, LineRefusal>
    ensures { LineGives (λ v. (v.items, entries.new)) result
        (field_bytes access name.now descriptor.now root entries.old) }
{
    let mut out = member_head(alloc, entries, access, name, descriptor)?;
    let attributes = field_attributes(alloc, entries, root)?;
    out.extend_from_slice(&attributes)?;
    Ok(out)
}

/// The content of a Code attribute (JVMS 4.7.3).
fn code_content(
    alloc: Global,
    stack: u16,
    locals: u16,
    code: &[u8],
    handlers: &Listed,
) -> Result<Vec<u8>, AllocError>
    requires { length code.now ≤ 65535 }
    ensures { IfOk result
        (λ v. v.items ≡ code_content stack locals code.now handlers.now.count
        handlers.now.bytes.items) }
{
    let mut out = Vec::new(alloc);
    put_u16(&mut out, stack)?;
    put_u16(&mut out, locals)?;
    put_u32(&mut out, code.len() as u32)?;
    out.extend_from_slice(code)?;
    put_u16(&mut out, handlers.count)?;
    out.extend_from_slice(&handlers.bytes)?;
    put_u16(&mut out, 0)?;
    Ok(out)
}

/// The only attribute of a method.
#[tactic(auto, unfolding(crate::specs::Members::attribute_bytes))]
fn attribute_bytes(alloc: Global, name: u16, content: &[u8]) -> Result<Vec<u8>, LineRefusal>
    ensures { LineGives (λ v. v.items) result (attribute_bytes name content.now) }
{
    if content.len() > 4_294_967_295 {
        return Err(LineRefusal::Fault(ListingFault::TooLarge));
    }
    let mut out = Vec::new(alloc);
    put_u16(&mut out, 1)?;
    put_u16(&mut out, name)?;
    put_u32(&mut out, content.len() as u32)?;
    out.extend_from_slice(content)?;
    Ok(out)
}

/// The index of the name of a Code attribute.
fn code_name(alloc: Global, entries: &mut Entries, number: u32) -> Result<u16, ListingError>
    ensures { Gives (λ index. (index, entries.new)) result
        (placed (at_line number) (with_utf8 (codes "Code") entries.old)) }
{
    match entries.utf8(alloc, b"Code") {
        Ok(index) => Ok(index),
        Err(refusal) => Err(at(number, refusal)),
    }
}

/// The Code of a method whose first line has a number.
#[tactic(auto, unfolding(crate::specs::Members::code_attribute))]
fn code_attribute(
    alloc: Global,
    entries: &mut Entries,
    number: u32,
    stack: u16,
    locals: u16,
    rest: &[Line],
) -> Result<Vec<u8>, ListingError>
    ensures { Gives (λ v. (v.items, entries.new)) result
        (code_attribute number stack locals rest.now entries.old) }
{
    let name = code_name(alloc, entries, number)?;
    let marks = marks(alloc, rest)?;
    let code = code(alloc, entries, &marks, next_number(number), rest)?;
    if code.len() > 65_535 {
        return Err(at(number, LineRefusal::Fault(ListingFault::TooLarge)));
    }
    let handlers = handlers(alloc, entries, &marks, next_number(number), rest)?;
    let content = code_content(alloc, stack, locals, &code, &handlers)?;
    match attribute_bytes(alloc, name, &content) {
        Ok(bytes) => Ok(bytes),
        Err(refusal) => Err(at(number, refusal)),
    }
}

fn method_attributes(
    alloc: Global,
    entries: &mut Entries,
    is_abstract: bool,
    number: u32,
    sizes: (u16, u16),
    rest: &[Line],
) -> Result<Vec<u8>, ListingError>
    ensures { Gives (λ v. (v.items, entries.new)) result
        (method_attributes is_abstract number sizes.0 sizes.1 rest.now entries.old) }
{
    if is_abstract {
        Ok(no_attributes(alloc)?)
    } else {
        code_attribute(alloc, entries, number, sizes.0, sizes.1, rest)
    }
}

/// What a method begins with, its line having a number.
fn method_head(
    alloc: Global,
    entries: &mut Entries,
    number: u32,
    access: u16,
    name: &[u8],
    descriptor: &[u8],
) -> Result<Vec<u8>, ListingError>
    ensures { Gives (λ v. (v.items, entries.new)) result
        (placed (at_line number) (member_head access name.now descriptor.now entries.old)) }
{
    match member_head(alloc, entries, access, name, descriptor) {
        Ok(bytes) => Ok(bytes),
        Err(refusal) => Err(at(number, refusal)),
    }
}

/// What a line with a number gives to the interfaces.
fn interface_item(
    alloc: Global,
    entries: &mut Entries,
    number: u32,
    line: &Line,
) -> Result<Option<Vec<u8>>, ListingError>
    ensures { Gives (λ item. (option_map (λ v. v.items) item, entries.new)) result
        (interface_item number line.now entries.old) }
{
    match line {
        Line::Implements(name) => match entries.text(alloc, 7, name.as_slice()) {
            Ok(index) => {
                let mut out = Vec::new(alloc);
                put_u16(&mut out, index)?;
                Ok(Some(out))
            }
            Err(refusal) => Err(at(number, refusal)),
        },
        _ => Ok(None),
    }
}

/// What a line with a number gives to the fields.
fn field_item(
    alloc: Global,
    entries: &mut Entries,
    number: u32,
    line: &Line,
) -> Result<Option<Vec<u8>>, ListingError>
    ensures { Gives (λ item. (option_map (λ v. v.items) item, entries.new)) result
        (field_item number line.now entries.old) }
{
    match line {
        Line::Field {
            access,
            name,
            descriptor,
            root,
        } => {
            let (name, descriptor) = (name.as_slice(), descriptor.as_slice());
            match field_bytes(alloc, entries, *access, name, descriptor, *root) {
                Ok(bytes) => Ok(Some(bytes)),
                Err(refusal) => Err(at(number, refusal)),
            }
        }
        _ => Ok(None),
    }
}

/// What a line with a number, and the lines behind it, give to the methods.
#[tactic(auto, unfolding(crate::specs::Members::method_bytes))]
fn method_item(
    alloc: Global,
    entries: &mut Entries,
    number: u32,
    line: &Line,
    rest: &[Line],
) -> Result<Option<Vec<u8>>, ListingError>
    ensures { Gives (λ item. (option_map (λ v. v.items) item, entries.new)) result
        (method_item number line.now rest.now entries.old) }
{
    match line {
        Line::Method {
            access,
            name,
            descriptor,
            stack,
            locals,
            is_abstract,
        } => {
            let (name, descriptor) = (name.as_slice(), descriptor.as_slice());
            let mut out = method_head(alloc, entries, number, *access, name, descriptor)?;
            let sizes = (*stack, *locals);
            let attributes = method_attributes(alloc, entries, *is_abstract, number, sizes, rest)?;
            out.extend_from_slice(&attributes)?;
            Ok(Some(out))
        }
        _ => Ok(None),
    }
}

/// What a line with a number, and the lines behind it, give to a section.
fn item_of(
    alloc: Global,
    entries: &mut Entries,
    section: Section,
    number: u32,
    line: &Line,
    rest: &[Line],
) -> Result<Option<Vec<u8>>, ListingError>
    ensures { Gives (λ item. (option_map (λ v. v.items) item, entries.new)) result
        (item_of section number line.now rest.now entries.old) }
{
    match section {
        Section::Interfaces => interface_item(alloc, entries, number, line),
        Section::Fields => field_item(alloc, entries, number, line),
        Section::Methods => method_item(alloc, entries, number, line, rest),
    }
}

fn begins_class(line: &Line) -> bool
    ensures { result ≡ begins_class line.now }
{
    matches!(line, Line::Class { .. })
}

/// A section of a class, of which these are the lines behind its first.
#[tactic(auto, unfolding(crate::specs::Members::section_from))]
pub(crate) fn section_bytes(
    alloc: Global,
    entries: &mut Entries,
    section: Section,
    number: u32,
    lines: &[Line],
) -> Result<Listed, ListingError>
    ensures { Gives (λ l. (l.count, l.bytes.items, entries.new)) result
        (section_from section number 0 lines.now entries.old) }
{
    let mut count = 0;
    let mut bytes = Vec::new(alloc);
    let mut number = number;
    let mut rest = lines;
    'lines: loop {
        match rest {
            [] => return Ok(Listed { count, bytes }),
            [line, behind @ ..] => {
                if begins_class(line) {
                    return Ok(Listed { count, bytes });
                }
                let item = item_of(alloc, entries, section, number, line, behind)?;
                count = match counted(count, &item) {
                    Ok(next) => next,
                    Err(refusal) => return Err(at(number, refusal)),
                };
                put_item(&mut bytes, &item)?;
                number = next_number(number);
                rest = behind;
            }
        }
    }
}
