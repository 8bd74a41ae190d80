//! Which lines may follow one another.

ghost use Rattle.std.specs.Prelude.{◌≡◌, false, if◌then◌else◌};
ghost use Rattle.listing.specs.Structure.{outside, begun, inside, body, bodiless, meant, next_place, is_long, has_long_text};
ghost use Rattle.listing.specs.Structure.{place_behind, may_end, structure_from, structure};

use crate::error::{ListingError, at, next_number};
use listing_lines::{Line, LineRefusal, ListingFault};

/// Where a line stands.
#[derive(Clone, Copy)]
pub(crate) enum Place {
    /// Before the first class.
    Outside,
    /// Behind a class's first line.
    Begun,
    /// Among the members of a class.
    Inside,
    /// In a method, of which an instruction has been or not.
    Body(bool),
    /// In an abstract method.
    Abstract,
}

const SYNTAX: LineRefusal = LineRefusal::Fault(ListingFault::Syntax);

fn outside(line: &Line) -> Result<Place, LineRefusal>
    ensures { result ≡ outside line.now }
{
    match line {
        Line::Class { .. } => Ok(Place::Begun),
        _ => Err(SYNTAX),
    }
}

fn begun(line: &Line) -> Result<Place, LineRefusal>
    ensures { result ≡ begun line.now }
{
    match line {
        Line::Super(_) => Ok(Place::Inside),
        _ => Err(SYNTAX),
    }
}

fn method_place(is_abstract: bool) -> Place
    ensures { result ≡ (if is_abstract then Place.Abstract else Place.Body false) }
{
    if is_abstract {
        Place::Abstract
    } else {
        Place::Body(false)
    }
}

fn inside(line: &Line) -> Result<Place, LineRefusal>
    ensures { result ≡ inside line.now }
{
    match line {
        Line::Class { .. } => Ok(Place::Begun),
        Line::Implements(_) => Ok(Place::Inside),
        Line::Field { .. } => Ok(Place::Inside),
        Line::Method { is_abstract, .. } => Ok(method_place(*is_abstract)),
        _ => Err(SYNTAX),
    }
}

fn body(coded: bool, line: &Line) -> Result<Place, LineRefusal>
    ensures { result ≡ body coded line.now }
{
    match line {
        Line::Label(_) => Ok(Place::Body(coded)),
        Line::Instruction(_) => Ok(Place::Body(true)),
        Line::Catch { .. } => Ok(Place::Body(coded)),
        Line::End => {
            if coded {
                Ok(Place::Inside)
            } else {
                Err(SYNTAX)
            }
        }
        _ => Err(SYNTAX),
    }
}

fn bodiless(line: &Line) -> Result<Place, LineRefusal>
    ensures { result ≡ bodiless line.now }
{
    match line {
        Line::End => Ok(Place::Inside),
        _ => Err(SYNTAX),
    }
}

fn meant(place: Place, line: &Line) -> Result<Place, LineRefusal>
    ensures { result ≡ meant place line.now }
{
    match place {
        Place::Outside => outside(line),
        Place::Begun => begun(line),
        Place::Inside => inside(line),
        Place::Body(coded) => body(coded, line),
        Place::Abstract => bodiless(line),
    }
}

/// Where a line leads.
fn next_place(place: Place, line: &Line) -> Result<Place, LineRefusal>
    ensures { result ≡ next_place place line.now }
{
    match line {
        Line::Nothing => Ok(place),
        Line::Wrong(kind) => Err(LineRefusal::Fault(*kind)),
        _ => meant(place, line),
    }
}

fn is_long(text: &[u8]) -> bool
    ensures { result ≡ is_long text.now }
{
    text.len() > 65_535
}

/// Whether a line that is no instruction has a name or a descriptor longer than a text may be (JVMS 4.4.7).
fn has_long_text(line: &Line) -> bool
    ensures { result ≡ has_long_text line.now }
{
    match line {
        Line::Class { name, .. } => is_long(name.as_slice()),
        Line::Super(name) => is_long(name.as_slice()),
        Line::Implements(name) => is_long(name.as_slice()),
        Line::Field {
            name,
            descriptor,
            ..
        } => is_long(name.as_slice()) || is_long(descriptor.as_slice()),
        Line::Method {
            name,
            descriptor,
            ..
        } => is_long(name.as_slice()) || is_long(descriptor.as_slice()),
        Line::Catch {
            class: Some(class),
            ..
        } => is_long(class.as_slice()),
        _ => false,
    }
}

/// Where a line leads whose texts are no longer than may be.
#[tactic(auto, unfolding(crate::specs::Structure::place_behind))]
fn place_behind(place: Place, line: &Line) -> Result<Place, LineRefusal>
    ensures { result ≡ place_behind place line.now }
{
    let behind = next_place(place, line)?;
    if has_long_text(line) {
        Err(LineRefusal::Fault(ListingFault::TooLarge))
    } else {
        Ok(behind)
    }
}

fn may_end(place: Place) -> bool
    ensures { result ≡ may_end place }
{
    matches!(place, Place::Outside | Place::Inside)
}

/// The first line that may not stand where it does, or that is wrong by itself.
#[tactic(auto, unfolding(crate::specs::Structure::structure_from))]
pub(crate) fn structure(lines: &[Line]) -> Result<(), ListingError>
    ensures { result ≡ structure lines.now }
{
    let mut number = 1;
    let mut place = Place::Outside;
    let mut rest = lines;
    'lines: loop {
        match rest {
            [] => {
                let kind = ListingFault::Syntax;
                return if may_end(place) {
                    Ok(())
                } else {
                    Err(ListingError::Fault { line: number, kind })
                };
            }
            [line, behind @ ..] => {
                match place_behind(place, line) {
                    Ok(next) => place = next,
                    Err(refusal) => return Err(at(number, refusal)),
                }
                number = next_number(number);
                rest = behind;
            }
        }
    }
}
