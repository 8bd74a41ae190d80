// `String.equals`.
ghost use Rattle.std.specs.Prelude.{◌≡◌, pos, ◌+ℤ◌};
ghost use Rattle.natives.specs.Positions.{equality_asks, equality_next, chars_from};
ghost use Rattle.natives.specs.Positions as position;
ghost use Rattle.natives.specs.Coded.{items};

use crate::positions::{Equality, Moved, Pair, Position};
use crate::replies::{int_in, is_null, is_yes};
use crate::{Reply, Request};
use ap_base::{Item, Kind, Ref};
use run_types::{At, Known};

fn gives_int(i: i32) -> Moved
    ensures { result ≡ position.gives_int items i }
{
    Moved::Gives(Some(Item::Int(i)))
}

fn waits(equality: Equality) -> Moved
    ensures { result ≡ Moved.Asks (Position.Equality equality) }
{
    Moved::Asks(Position::Equality(equality))
}

// The chars from one on are compared.
fn chars_from(pair: Pair, length: i32, at: i32) -> Moved
    ensures { result ≡ chars_from items pair length at }
{
    if at < length {
        waits(Equality::LeftChar { pair, length, at })
    } else {
        gives_int(1)
    }
}

// The chars after one are compared.
fn chars_after(pair: Pair, length: i32, at: i32) -> Moved
    ensures { result ≡ chars_from items pair length (at +ℤ pos 1) }
{
    match at.checked_add(1) {
        Some(after) => chars_from(pair, length, after),
        None => gives_int(1),
    }
}

fn char_request(from: At, text: Ref, index: i32) -> Request
    ensures { result ≡ Request.GetElement from text index Kind.Text }
{
    Request::GetElement {
        from,
        array: text,
        index,
        kind: Kind::Text,
    }
}

impl Equality {
    pub(crate) fn request(&self, known: &Known, from: At) -> Request
        ensures { result ≡ equality_asks items known.now from self.now }
    {
        match *self {
            Equality::Same(pair) => Request::Same {
                from,
                left: pair.left,
                right: pair.right,
            },
            Equality::IsString(pair) => Request::IsA {
                from,
                object: pair.right,
                target: known.string,
            },
            Equality::LeftLength(pair) => Request::Length {
                from,
                array: pair.left,
            },
            Equality::RightLength { pair, .. } => Request::Length {
                from,
                array: pair.right,
            },
            Equality::LeftChar { pair, at, .. } => char_request(from, pair.left, at),
            Equality::RightChar { pair, at, .. } => char_request(from, pair.right, at),
        }
    }

    pub(crate) fn next(&self, reply: &Reply) -> Moved
        ensures { result ≡ equality_next items self.now reply.now }
    {
        match *self {
            Equality::Same(_) if is_yes(reply) => gives_int(1),
            Equality::Same(pair) if is_null(pair.right) => gives_int(0),
            Equality::Same(pair) => waits(Equality::IsString(pair)),
            Equality::IsString(pair) if is_yes(reply) => waits(Equality::LeftLength(pair)),
            Equality::LeftLength(pair) => waits(Equality::RightLength {
                pair,
                length: int_in(reply),
            }),
            Equality::RightLength { pair, length } if length == int_in(reply) => chars_from(
                pair, length, 0,
            ),
            Equality::LeftChar { pair, length, at } => waits(Equality::RightChar {
                pair,
                length,
                at,
                char: int_in(reply),
            }),
            Equality::RightChar {
                pair,
                length,
                at,
                char,
            } if char == int_in(reply) => { chars_after(pair, length, at) }
            _ => gives_int(0),
        }
    }
}
