// Texts that built-in methods append and print.
ghost use Rattle.std.specs.Prelude.{◌≡◌, ◌<◌, ◌≤◌, length, slice_get};
ghost use Rattle.natives.specs.Texts.{chars_of, number_text, boolean_text, char_text, null_text, line_feed, string_text};
ghost use Rattle.natives.specs.Texts.{spelled_bytes};
ghost use Rattle.natives.specs.Coded.{items};

use crate::replies::char_of;
use crate::utf8::lone_bytes;
use ap_base::{Piece, Ref};
use itoa::Buffer;

/// A text that isn't a String.
#[derive(Clone, Copy)]
pub enum Spelling {
    /// A number, `true`, `false`, `null` or a line feed, in ASCII.
    Ascii(Piece),
    Char(u16),
}

/// A text that is appended or printed.
#[derive(Clone, Copy)]
pub enum Text<R = Ref> {
    Spelled(Spelling),
    String(R),
}

impl Spelling {
    /// The char at an index, `None` exactly from the length on.
    pub(crate) fn char_at(&self, index: u8) -> Option<u16>
        ensures { result ≡ slice_get (chars_of self.now) index }
    {
        match self {
            Spelling::Ascii(piece) => piece
                .as_slice()
                .get(usize::from(index))
                .map(|byte| u16::from(*byte)),
            Spelling::Char(char) if index == 0 => Some(*char),
            Spelling::Char(_) => None,
        }
    }

    /// How many chars it has.
    pub(crate) fn length(&self) -> u8
        ensures same { result ≡ length (chars_of self.now) }
        ensures few { result ≤ 24 }
    {
        match self {
            Spelling::Ascii(piece) => piece.as_slice().len() as u8,
            Spelling::Char(_) => 1,
        }
    }

    /// The bytes of its characters in UTF-8.
    pub(crate) fn bytes(&self) -> Piece
        ensures { result ≡ spelled_bytes self.now }
    {
        match self {
            Spelling::Ascii(piece) => *piece,
            Spelling::Char(char) => lone_bytes(*char),
        }
    }
}

// A text of a few bytes of ASCII.
fn ascii(bytes: &[u8]) -> Text
    requires some { 0 < length bytes.now }
    requires few { length bytes.now ≤ 24 }
    ensures { result ≡ Text.Spelled (Spelling.Ascii bytes.now) }
{
    Text::Spelled(Spelling::Ascii(Piece::new(bytes).unwrap()))
}

/// The text of a number in decimal.
pub(crate) fn number_text(number: i64) -> Text
    ensures { result ≡ number_text number }
{
    let mut buffer = Buffer::new();
    ascii(buffer.format(number).as_bytes())
}

pub(crate) fn boolean_text(value: i32) -> Text
    ensures { result ≡ boolean_text value }
{
    if value == 0 {
        ascii(b"false")
    } else {
        ascii(b"true")
    }
}

pub(crate) fn char_text(value: i32) -> Text
    ensures { result ≡ char_text value }
{
    Text::Spelled(Spelling::Char(char_of(value)))
}

pub(crate) fn null_text() -> Text
    ensures { result ≡ null_text }
{
    ascii(b"null")
}

/// What a line ends with.
pub(crate) fn line_feed() -> Text
    ensures { result ≡ line_feed }
{
    ascii(b"\n")
}

/// The text of a String, or of null.
pub(crate) fn string_text(string: Ref) -> Text
    ensures { result ≡ string_text items string }
{
    match string {
        Ref::Null => null_text(),
        _ => Text::String(string),
    }
}
