//! Durable roots, of which no two of a class have one name.

ghost use Rattle.std.specs.Prelude.{◌≡◌, [], OnOk};
ghost use Rattle.std.specs.List.{list_any};
ghost use Rattle.std.specs.Str.{bytes_eq};
ghost use Rattle.listing.specs.Structure.{Gives};
ghost use Rattle.listing.specs.Roots.{is_root_again, roots_after, roots_from};

use crate::error::{ListingError, next_number};
use ap_base::Bytes;
use listing_lines::{Line, ListingFault};
use std::alloc::{AllocError, Global};

fn is_among(names: &[Bytes], name: &[u8]) -> bool
    ensures { result ≡ list_any (bytes_eq name.now) names.now }
{
    for other in names {
        if name == other.as_slice() {
            return true;
        }
    }
    false
}

/// Whether a line is a durable root with one of these names.
fn is_root_again(roots: &[Bytes], line: &Line) -> bool
    ensures { result ≡ is_root_again roots.now line.now }
{
    match line {
        Line::Field { name, root, .. } => *root && is_among(roots, name.as_slice()),
        _ => false,
    }
}

/// Notes the name of a durable root. A class has none at first.
fn note_root(alloc: Global, roots: &mut Vec<Bytes>, line: &Line) -> Result<(), AllocError>
    ensures { OnOk result (roots.new.items ≡ roots_after roots.old.items line.now) }
{
    match line {
        Line::Class { .. } => roots.clear(),
        Line::Field { name, root, .. } => {
            if *root {
                roots.push(Bytes::copy(alloc, name.as_slice())?)?;
            }
        }
        _ => {}
    }
    Ok(())
}

/// The first line that is a durable root with the name of an earlier one of its class.
#[tactic(auto, unfolding(crate::specs::Roots::roots_from))]
pub(crate) fn roots(alloc: Global, lines: &[Line]) -> Result<(), ListingError>
    ensures { Gives (λ none. none) result (roots_from 1 [] lines.now) }
{
    let mut roots = Vec::new(alloc);
    let mut number = 1;
    let mut rest = lines;
    'lines: loop {
        match rest {
            [] => return Ok(()),
            [line, behind @ ..] => {
                if is_root_again(&roots, line) {
                    let kind = ListingFault::Syntax;
                    return Err(ListingError::Fault { line: number, kind });
                }
                note_root(alloc, &mut roots, line)?;
                number = next_number(number);
                rest = behind;
            }
        }
    }
}
