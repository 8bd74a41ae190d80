// Tests of arrays and indices.
ghost use Rattle.std.specs.Prelude.{◌≡◌, ◌<◌, length};
ghost use Rattle.plain_model.specs.Facts.{classes_of};
ghost use Rattle.plain_model.specs.Steps.{is_kind};
ghost use Rattle.object_steps.specs.Elements.{IsBelowIndex, IsCount, has_elements_of, end_thrown};

use ap_base::Kind;
use plain_model::Throws;
use shared_objects::Types;

// Whether an array with elements of the second kind serves a request for the first.
fn serves(asked: Kind, element: Kind) -> bool
    ensures { result ≡ is_kind asked element }
{
    match asked {
        Kind::Z => matches!(element, Kind::Z),
        Kind::B => matches!(element, Kind::B | Kind::Z),
        Kind::C => matches!(element, Kind::C),
        Kind::S => matches!(element, Kind::S),
        Kind::I => matches!(element, Kind::I),
        Kind::J => matches!(element, Kind::J),
        Kind::L => matches!(element, Kind::L),
        Kind::Text => false,
    }
}

/// Whether objects of a class have elements of this kind.
pub fn has_elements<C: Types>(set: &C, kind: Kind, class: u32) -> bool
    requires there { class < length (classes_of (C.facts set.now)) }
    ensures { result ≡ has_elements_of (C.facts set.now) kind class }
{
    let is_string = class == set.known().string;
    match kind {
        Kind::Text => is_string,
        _ => match set.element(class) {
            Some(element) => !is_string && serves(kind, element),
            None => false,
        },
    }
}

/// What an index out of range throws.
pub fn past_end(kind: Kind) -> Throws
    ensures { result ≡ end_thrown kind }
{
    match kind {
        Kind::Text => Throws::StringIndexOutOfBounds,
        _ => Throws::ArrayIndexOutOfBounds,
    }
}

/// The index, where it is in range.
pub fn index_below(index: i32, length: u32) -> Option<u32>
    ensures { IsBelowIndex index length result }
{
    let at = u32::try_from(index).ok()?;
    if at < length { Some(at) } else { None }
}

/// A number of elements, none where it is negative.
pub fn counted(length: i32) -> Option<u32>
    ensures { IsCount length result }
{
    u32::try_from(length).ok()
}
