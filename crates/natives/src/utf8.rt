// Characters of UTF-16 in UTF-8, and pieces that gather them.
ghost use Rattle.std.specs.Prelude.{◌≡◌, ◌≤◌, ◌++◌, length, IsTrue, Some, None, encode_utf8, option_to_list, if◌then◌else◌};
ghost use Rattle.std.specs.Char.Utf16.{is_high_surrogate, is_low_surrogate, lone_unit_char, surrogate_pair_char};
ghost use Rattle.natives.specs.Texts.{characters, lone_characters, held_after, last_characters, lone_bytes, question, fits};
ghost use Rattle.natives.specs.Positions.{pour};
ghost use Rattle.natives.specs.Listed.{listed, AreShort};

use ap_base::Piece;

/// At most two characters, each in UTF-8, the first one first.
#[derive(Clone, Copy)]
pub struct FewCharacters {
    pub first: Option<Piece>,
    pub second: Option<Piece>,
}

/// A piece that is full, if there is one, and the next one.
#[derive(Clone, Copy)]
pub struct Poured {
    pub full: Option<Piece>,
    pub rest: Option<Piece>,
}

fn is_high(char: u16) -> bool
    ensures { result ≡ is_high_surrogate char }
{
    0xD800 <= char && char < 0xDC00
}

fn is_low(char: u16) -> bool
    ensures { result ≡ is_low_surrogate char }
{
    0xDC00 <= char && char < 0xE000
}

// What stands for a surrogate without its partner.
fn question() -> Piece
    ensures { result ≡ question }
{
    Piece::new(b"?").unwrap()
}

// A character in UTF-8.
fn encoded(character: char) -> Piece
    ensures same { result ≡ encode_utf8 character }
    ensures few { length result ≤ 4 }
{
    let mut buffer = [0; 4];
    Piece::new(character.encode_utf8(&mut buffer).as_bytes()).unwrap()
}

/// The bytes of a char that is in no pair.
pub(crate) fn lone_bytes(char: u16) -> Piece
    ensures same { result ≡ lone_bytes (lone_unit_char char) }
    ensures few { length result ≤ 4 }
{
    match char::from_u32(u32::from(char)) {
        Some(character) => encoded(character),
        None => question(),
    }
}

fn pair_bytes(high: u16, low: u16) -> Piece
    requires high { IsTrue (is_high_surrogate high) }
    requires low { IsTrue (is_low_surrogate low) }
    ensures same { result ≡ encode_utf8 (surrogate_pair_char high low) }
    ensures few { length result ≤ 4 }
{
    let code = 0x1_0000 + (u32::from(high) - 0xD800) * 0x400 + (u32::from(low) - 0xDC00);
    match char::from_u32(code) {
        Some(character) => encoded(character),
        None => question(),
    }
}

// The character of a char that isn't the second of a pair, if it ends one.
fn lone_character(char: u16) -> Option<Piece>
    ensures same { option_to_list result ≡ lone_characters char }
    ensures short { AreShort (option_to_list result) }
{
    if is_high(char) {
        None
    } else {
        Some(lone_bytes(char))
    }
}

/// The characters that a char ends, where the one before it may be the first of a pair.
pub(crate) fn characters(held: Option<u16>, char: u16) -> FewCharacters
    ensures same { listed result ≡ characters held char }
    ensures short { AreShort (listed result) }
{
    let Some(high) = held else {
        return FewCharacters {
            first: lone_character(char),
            second: None,
        };
    };
    if is_high(high) && is_low(char) {
        return FewCharacters {
            first: Some(pair_bytes(high, char)),
            second: None,
        };
    }
    FewCharacters {
        first: Some(question()),
        second: lone_character(char),
    }
}

/// The char, where it may be the first of a pair.
pub(crate) fn held_after(char: u16) -> Option<u16>
    ensures { result ≡ held_after char }
{
    if is_high(char) { Some(char) } else { None }
}

/// The characters at a text's end.
pub(crate) fn last_characters(held: Option<u16>, is_line: bool) -> FewCharacters
    ensures same { listed result ≡ last_characters held is_line }
    ensures short { AreShort (listed result) }
{
    FewCharacters {
        first: held.map(|_| question()),
        second: if is_line { Piece::new(b"\n") } else { None },
    }
}

// Both together, where they are a piece.
fn joined(piece: &Piece, character: &Piece) -> Option<Piece>
    ensures { result ≡ (if fits piece.now character.now then Some (piece.now
        ++ character.now) else None) }
{
    let first = piece.as_slice();
    let second = character.as_slice();
    let length = first.len() + second.len();
    if length > 24 {
        return None;
    }
    let mut bytes = [0; 24];
    bytes[..first.len()].copy_from_slice(first);
    bytes[first.len()..length].copy_from_slice(second);
    Piece::new(&bytes[..length])
}

// A piece with one more character, or full and followed by it.
fn with_character(piece: Option<Piece>, character: Option<Piece>) -> Poured
    requires { AreShort (option_to_list character) }
    ensures { result ≡ pour piece (option_to_list character) }
{
    let Some(last) = character else {
        return Poured {
            full: None,
            rest: piece,
        };
    };
    let Some(first) = piece else {
        return Poured {
            full: None,
            rest: character,
        };
    };
    match joined(&first, &last) {
        Some(both) => Poured {
            full: None,
            rest: Some(both),
        },
        None => Poured {
            full: piece,
            rest: character,
        },
    }
}

/// Gathers characters in a piece while they fit.
pub(crate) fn pour(piece: Option<Piece>, characters: &FewCharacters) -> Poured
    requires { AreShort (listed characters.now) }
    ensures { result ≡ pour piece (listed characters.now) }
{
    let poured = with_character(piece, characters.first);
    if poured.full.is_none() {
        return with_character(poured.rest, characters.second);
    }
    let more = with_character(poured.rest, characters.second);
    Poured {
        full: poured.full,
        rest: more.rest,
    }
}
