// `PrintStream.print` and `println`.
ghost use Rattle.std.specs.Prelude.{◌≡◌, max, drop};
ghost use Rattle.natives.specs.Texts.{characters};
ghost use Rattle.natives.specs.Positions.{printing_asks, printing_next, entered, finishes, ends, reads, reads_on, with_held};
ghost use Rattle.natives.specs.Positions.{resumes, gathers, prints};
ghost use Rattle.natives.specs.Coded.{items};

use crate::positions::{Moved, Position, Printing, Reading, Stream};
use crate::replies::{char_of, int_in, next_index, printed_in};
use crate::texts::Text;
use crate::utf8::{characters, held_after, last_characters, pour};
use crate::{Reply, Request};
use ap_base::{Kind, Piece};
use run_types::{At, Key, Known};

fn waits(printing: Printing) -> Moved
    ensures { result ≡ Moved.Asks (Position.Printing printing) }
{
    Moved::Asks(Position::Printing(printing))
}

// The last piece is printed, if there is one, and the stream is left.
fn finishes(to: Stream, piece: Option<Piece>) -> Moved
    ensures { result ≡ finishes items to piece }
{
    match piece {
        None => waits(Printing::Exit(to.stream)),
        Some(piece) => waits(Printing::Piece {
            to,
            piece,
            rest: None,
            reading: None,
        }),
    }
}

// All chars are read.
fn ends(to: Stream, held: Option<u16>, piece: Option<Piece>) -> Moved
    ensures { result ≡ ends items to held piece }
{
    let poured = pour(piece, &last_characters(held, to.is_line));
    match poured.full {
        None => finishes(to, poured.rest),
        Some(piece) => waits(Printing::Piece {
            to,
            piece,
            rest: poured.rest,
            reading: None,
        }),
    }
}

// On with the chars that aren't read yet.
fn reads(to: Stream, reading: Reading, piece: Option<Piece>) -> Moved
    ensures { result ≡ reads items to reading piece }
{
    if reading.at < reading.length {
        waits(Printing::Char { to, reading, piece })
    } else {
        ends(to, reading.held, piece)
    }
}

// On with the chars after the one that was read last.
fn reads_on(to: Stream, reading: Reading, piece: Option<Piece>) -> Moved
    ensures { result ≡ reads_on items to reading piece }
{
    match next_index(reading.at, reading.length) {
        Some(at) => waits(Printing::Char {
            to,
            reading: Reading { at, ..reading },
            piece,
        }),
        None => ends(to, reading.held, piece),
    }
}

fn resumes(to: Stream, reading: Option<Reading>, piece: Option<Piece>) -> Moved
    ensures { result ≡ resumes items to reading piece }
{
    match reading {
        None => finishes(to, piece),
        Some(reading) => reads_on(to, reading, piece),
    }
}

// A char is read.
fn gathers(to: Stream, reading: Reading, piece: Option<Piece>, char: u16) -> Moved
    ensures { result ≡ gathers items to (with_held items reading char) piece
        (characters reading.held char) }
{
    let poured = pour(piece, &characters(reading.held, char));
    let reading = Reading {
        held: held_after(char),
        ..reading
    };
    match poured.full {
        None => reads_on(to, reading, poured.rest),
        Some(piece) => waits(Printing::Piece {
            to,
            piece,
            rest: poured.rest,
            reading: Some(reading),
        }),
    }
}

// The stream's monitor is held.
fn enters(to: Stream, text: Text) -> Moved
    ensures { result ≡ entered items to text }
{
    match text {
        Text::Spelled(spelling) => ends(to, None, Some(spelling.bytes())),
        Text::String(text) => waits(Printing::Length { to, text }),
    }
}

// So many bytes of a piece are printed.
fn prints(
    to: Stream,
    reading: Option<Reading>,
    rest: Option<Piece>,
    piece: Piece,
    count: u32,
) -> Moved
    ensures { result ≡ prints items to reading rest (drop (max 1 count) piece) }
{
    match piece.rest(count.max(1) as usize) {
        None => resumes(to, reading, rest),
        Some(left) => waits(Printing::Piece {
            to,
            piece: left,
            rest,
            reading,
        }),
    }
}

impl Printing {
    pub(crate) fn request(&self, known: &Known, from: At) -> Request
        ensures { result ≡ printing_asks items known.now from self.now }
    {
        match *self {
            Printing::Enter { to, .. } => Request::Enter {
                from,
                key: Key::Object(to.stream),
            },
            Printing::Length { text, .. } => Request::Length { from, array: text },
            Printing::Char { reading, .. } => Request::GetElement {
                from,
                array: reading.text,
                index: reading.at,
                kind: Kind::Text,
            },
            Printing::Piece { piece, .. } => Request::Print { from, piece },
            Printing::Exit(stream) => Request::Exit {
                from,
                key: Key::Object(stream),
            },
        }
    }

    pub(crate) fn next(&self, reply: &Reply) -> Moved
        ensures { result ≡ printing_next items self.now reply.now }
    {
        match *self {
            Printing::Enter { to, text } => enters(to, text),
            Printing::Length { to, text } => {
                let reading = Reading {
                    text,
                    at: 0,
                    length: int_in(reply),
                    held: None,
                };
                reads(to, reading, None)
            }
            Printing::Char { to, reading, piece } => {
                gathers(to, reading, piece, char_of(int_in(reply)))
            }
            Printing::Piece {
                to,
                piece,
                rest,
                reading,
            } => { prints(to, reading, rest, piece, printed_in(reply)) }
            Printing::Exit(_) => Moved::Gives(None),
        }
    }
}
