//! The directives of a listing.

ghost use Rattle.std.specs.Prelude.{◌≡◌, ◌≤◌, IfOk};
ghost use Rattle.std.specs.List.{list_any};
ghost use Rattle.listing_lines.specs.Reading.{Answers, Gives};
ghost use Rattle.listing_lines.specs.Lines.{is_barred_in_class, class_line, super_line, implements_line, flag};
ghost use Rattle.listing_lines.specs.Lines.{is_barred_in_field, is_class, is_reference, field_options, field, field_line};
ghost use Rattle.listing_lines.specs.Lines.{method_options, sizes, method, method_line, catch_class, catch_line, end_line};
ghost use Rattle.listing_lines.specs.Lines.{directive_named, directive_line};

use crate::lines::Line;
use crate::operands::{
    SYNTAX, field_type, is_word, natural, no_operand, one_operand, parameters, taken,
};
use crate::refusal::{LineRefusal, ListingFault};
use ap_base::Bytes;
use const_pool::{ElementType, FieldType};
use std::alloc::{AllocError, Global};

/// A word that a line begins with and that is no instruction's.
#[derive(Clone, Copy)]
pub(crate) enum Directive {
    Class,
    Final,
    Interface,
    Super,
    Implements,
    Field,
    Method,
    Catch,
    End,
}

const BAD_NUMBER: LineRefusal = LineRefusal::Fault(ListingFault::BadNumber);

fn is_barred_in_class(b: u8) -> bool
    ensures { result ≡ is_barred_in_class b }
{
    matches!(b, b'.' | b';' | b'[')
}

fn is_barred_in_field(b: u8) -> bool
    ensures { result ≡ is_barred_in_field b }
{
    b == b'/' || is_barred_in_class(b)
}

fn is_misnamed_class(name: &[u8]) -> bool
    ensures { result ≡ list_any is_barred_in_class name.now }
{
    for b in name {
        if is_barred_in_class(*b) {
            return true;
        }
    }
    false
}

fn is_misnamed_field(name: &[u8]) -> bool
    ensures { result ≡ list_any is_barred_in_field name.now }
{
    for b in name {
        if is_barred_in_field(*b) {
            return true;
        }
    }
    false
}

#[tactic(auto, unfolding(crate::specs::Lines::class_line))]
fn class_line(alloc: Global, access: u16, operands: &[Bytes]) -> Result<Line, LineRefusal>
    ensures { Gives (λ line. line) result (class_line access operands.now) }
{
    let name = one_operand(operands)?;
    if is_misnamed_class(name) {
        return Err(SYNTAX);
    }
    let name = Bytes::copy(alloc, name)?;
    Ok(Line::Class { access, name })
}

fn super_line(alloc: Global, operands: &[Bytes]) -> Result<Line, LineRefusal>
    ensures { Gives (λ line. line) result (super_line operands.now) }
{
    Ok(Line::Super(Bytes::copy(alloc, one_operand(operands)?)?))
}

fn implements_line(alloc: Global, operands: &[Bytes]) -> Result<Line, LineRefusal>
    ensures { Gives (λ line. line) result (implements_line operands.now) }
{
    Ok(Line::Implements(Bytes::copy(alloc, one_operand(operands)?)?))
}

fn flag(set: bool, bit: u16) -> u16
    ensures flag { result ≡ flag set bit }
    ensures small { result ≤ bit }
{
    if set { bit } else { 0 }
}

fn is_class(element: &ElementType) -> bool
    ensures { result ≡ is_class element.now }
{
    matches!(element, ElementType::Class(_))
}

fn is_reference(field: &FieldType) -> bool
    ensures { result ≡ is_reference field.now }
{
    field.dimensions != 0 || is_class(&field.element)
}

/// Whether a field is static, and whether it is a durable root.
fn field_options(operands: &[Bytes]) -> Result<(bool, bool), LineRefusal>
    ensures { Answers (λ found. found) result (field_options operands.now) }
{
    let (is_static, rest) = taken(b"static", operands);
    let (is_root, rest) = taken(b"root", rest);
    if rest.is_empty() {
        Ok((is_static, is_root))
    } else {
        Err(SYNTAX)
    }
}

#[tactic(auto, unfolding(crate::specs::Lines::field))]
fn field(
    alloc: Global,
    name: &[u8],
    descriptor: &[u8],
    options: &[Bytes],
) -> Result<Line, LineRefusal>
    ensures { Gives (λ line. line) result (field name.now descriptor.now options.now) }
{
    if is_misnamed_field(name) {
        return Err(SYNTAX);
    }
    let typed = field_type(alloc, descriptor)?;
    let (is_static, root) = field_options(options)?;
    if root && !(is_static && is_reference(&typed)) {
        return Err(SYNTAX);
    }
    Ok(Line::Field {
        access: 1 + flag(is_static, 8),
        name: Bytes::copy(alloc, name)?,
        descriptor: Bytes::copy(alloc, descriptor)?,
        root,
    })
}

fn field_line(alloc: Global, operands: &[Bytes]) -> Result<Line, LineRefusal>
    ensures { Gives (λ line. line) result (field_line operands.now) }
{
    match operands {
        [name, descriptor, options @ ..] => {
            field(alloc, name.as_slice(), descriptor.as_slice(), options)
        }
        _ => Err(SYNTAX),
    }
}

/// Whether a method is static, synchronized and abstract.
fn method_options(operands: &[Bytes]) -> Result<(bool, bool, bool), LineRefusal>
    ensures { Answers (λ found. found) result (method_options operands.now) }
{
    let (is_static, rest) = taken(b"static", operands);
    let (is_synchronized, rest) = taken(b"synchronized", rest);
    let (is_abstract, rest) = taken(b"abstract", rest);
    if rest.is_empty() {
        Ok((is_static, is_synchronized, is_abstract))
    } else {
        Err(SYNTAX)
    }
}

/// The greatest depth of the stack, and the number of local variables.
#[tactic(auto, unfolding(crate::specs::Lines::sizes))]
fn sizes(stack: &[u8], locals: &[u8]) -> Result<(u16, u16), LineRefusal>
    ensures { Answers (λ found. found) result (sizes stack.now locals.now) }
{
    let stack = natural(65_535, stack).ok_or(BAD_NUMBER)?;
    let locals = natural(65_535, locals).ok_or(BAD_NUMBER)?;
    Ok((stack, locals))
}

#[tactic(auto, unfolding(crate::specs::Lines::method))]
fn method(
    alloc: Global,
    name: &[u8],
    descriptor: &[u8],
    size: (u16, u16),
    options: &[Bytes],
) -> Result<Line, LineRefusal>
    ensures { Gives (λ line. line) result (method name.now descriptor.now size options.now) }
{
    let (stack, locals) = size;
    let (is_static, is_synchronized, is_abstract) = method_options(options)?;
    if is_abstract && !(stack == 0 && locals == 0) {
        return Err(SYNTAX);
    }
    Ok(Line::Method {
        access: 1 + flag(is_static, 8) + flag(is_synchronized, 32) + flag(is_abstract, 1024),
        name: Bytes::copy(alloc, name)?,
        descriptor: Bytes::copy(alloc, descriptor)?,
        stack,
        locals,
        is_abstract,
    })
}

#[tactic(auto, unfolding(crate::specs::Lines::method_line))]
fn method_line(alloc: Global, operands: &[Bytes]) -> Result<Line, LineRefusal>
    ensures { Gives (λ line. line) result (method_line operands.now) }
{
    match operands {
        [name, descriptor, stack, locals, options @ ..] => {
            parameters(alloc, descriptor.as_slice())?;
            let size = sizes(stack.as_slice(), locals.as_slice())?;
            method(alloc, name.as_slice(), descriptor.as_slice(), size, options)
        }
        _ => Err(SYNTAX),
    }
}

/// The class of a catch, `None` for any throwable.
fn catch_class(alloc: Global, name: &[u8]) -> Result<Option<Bytes>, AllocError>
    ensures { IfOk result (λ class. class ≡ catch_class name.now) }
{
    if is_word(name, b"any") {
        Ok(None)
    } else {
        Ok(Some(Bytes::copy(alloc, name)?))
    }
}

fn catch_line(alloc: Global, operands: &[Bytes]) -> Result<Line, LineRefusal>
    ensures { Gives (λ line. line) result (catch_line operands.now) }
{
    match operands {
        [class, start, end, handler] => Ok(Line::Catch {
            class: catch_class(alloc, class.as_slice())?,
            start: Bytes::copy(alloc, start.as_slice())?,
            end: Bytes::copy(alloc, end.as_slice())?,
            handler: Bytes::copy(alloc, handler.as_slice())?,
        }),
        _ => Err(SYNTAX),
    }
}

fn end_line(operands: &[Bytes]) -> Result<Line, LineRefusal>
    ensures { Answers (λ line. line) result (end_line operands.now) }
{
    no_operand(operands)?;
    Ok(Line::End)
}

/// The directive with this word, `None` exactly where there is none.
pub(crate) fn directive_named(word: &[u8]) -> Option<Directive>
    ensures { result ≡ directive_named word.now }
{
    if is_word(word, b".class") {
        Some(Directive::Class)
    } else if is_word(word, b".final") {
        Some(Directive::Final)
    } else if is_word(word, b".interface") {
        Some(Directive::Interface)
    } else if is_word(word, b".super") {
        Some(Directive::Super)
    } else if is_word(word, b".implements") {
        Some(Directive::Implements)
    } else if is_word(word, b".field") {
        Some(Directive::Field)
    } else if is_word(word, b".method") {
        Some(Directive::Method)
    } else if is_word(word, b".catch") {
        Some(Directive::Catch)
    } else if is_word(word, b".end") {
        Some(Directive::End)
    } else {
        None
    }
}

/// What a directive means with these operands. The access flags of a class are public and super, and final or interface and
/// abstract (JVMS table 4.1-B).
pub(crate) fn directive_line(
    alloc: Global,
    directive: Directive,
    operands: &[Bytes],
) -> Result<Line, LineRefusal>
    ensures { Gives (λ line. line) result (directive_line directive operands.now) }
{
    match directive {
        Directive::Class => class_line(alloc, 0x0021, operands),
        Directive::Final => class_line(alloc, 0x0031, operands),
        Directive::Interface => class_line(alloc, 0x0601, operands),
        Directive::Super => super_line(alloc, operands),
        Directive::Implements => implements_line(alloc, operands),
        Directive::Field => field_line(alloc, operands),
        Directive::Method => method_line(alloc, operands),
        Directive::Catch => catch_line(alloc, operands),
        Directive::End => end_line(operands),
    }
}
