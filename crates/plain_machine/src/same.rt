// Which operations are the same.
ghost use Rattle.std.specs.Prelude.{◌≡◌, ◌↔◌, IsTrue, false};
ghost use Rattle.plain_machine.specs.Ops.{is_print};

use ap_base::Place;
use graph_model::Value;
use run_history::{Op, PlainKey, Stage};

fn same_place(a: Place, b: Place) -> bool
    ensures { IsTrue result ↔ (a ≡ b) }
{
    a == b
}

fn same_value(a: Value, b: Value) -> bool
    ensures { IsTrue result ↔ (a ≡ b) }
{
    a == b
}

fn same_key(a: PlainKey, b: PlainKey) -> bool
    ensures { IsTrue result ↔ (a ≡ b) }
{
    a == b
}

fn same_stage(a: Stage, b: Stage) -> bool
    ensures { IsTrue result ↔ (a ≡ b) }
{
    a == b
}

fn same_number(a: Option<u32>, b: Option<u32>) -> bool
    ensures { IsTrue result ↔ (a ≡ b) }
{
    match a {
        None => b.is_none(),
        Some(m) => match b {
            None => false,
            Some(n) => m == n,
        },
    }
}

/// Whether an operation that isn't a print is the same as another one.
pub(crate) fn is_same(a: &Op, b: &Op) -> bool
    requires silent { is_print a.now ≡ false }
    ensures { IsTrue result ↔ (a.now ≡ b.now) }
{
    match *a {
        Op::Pause => matches!(*b, Op::Pause),
        Op::Alloc {
            object,
            shape,
            length,
        } => match *b {
            Op::Alloc {
                object: n,
                shape: s,
                length: l,
            } => object == n && shape == s && length == l,
            _ => false,
        },
        Op::Read { place, value } => match *b {
            Op::Read { place: p, value: v } => same_place(place, p) && same_value(value, v),
            _ => false,
        },
        Op::Stored { place, value } => match *b {
            Op::Stored { place: p, value: v } => same_place(place, p) && same_value(value, v),
            _ => false,
        },
        Op::Length { object, length } => match *b {
            Op::Length {
                object: n,
                length: l,
            } => object == n && length == l,
            _ => false,
        },
        Op::Class { object, shape } => match *b {
            Op::Class {
                object: n,
                shape: s,
            } => same_number(object, n) && same_number(shape, s),
            _ => false,
        },
        Op::Same { yes } => match *b {
            Op::Same { yes: y } => yes == y,
            _ => false,
        },
        Op::Enter { key } => match *b {
            Op::Enter { key: k } => same_key(key, k),
            _ => false,
        },
        Op::Exit { key } => match *b {
            Op::Exit { key: k } => same_key(key, k),
            _ => false,
        },
        Op::Start { object, child } => match *b {
            Op::Start {
                object: n,
                child: c,
            } => object == n && child.number() == c.number(),
            _ => false,
        },
        Op::Join { object } => match *b {
            Op::Join { object: n } => object == n,
            _ => false,
        },
        Op::Init { class, is } => match *b {
            Op::Init { class: c, is: s } => class == c && same_stage(is, s),
            _ => false,
        },
        Op::Print { .. } => false,
        Op::Throw { object, class } => match *b {
            Op::Throw {
                object: n,
                class: c,
            } => object == n && class == c,
            _ => false,
        },
        Op::Begin => matches!(*b, Op::Begin),
        Op::End => matches!(*b, Op::End),
        Op::Ended { uncaught } => match *b {
            Op::Ended { uncaught: u } => same_number(uncaught, u),
            _ => false,
        },
        Op::Asked { place, value } => match *b {
            Op::Asked { place: p, value: v } => same_place(place, p) && same_value(value, v),
            _ => false,
        },
        Op::Joined => matches!(*b, Op::Joined),
        Op::Guarded { place } => match *b {
            Op::Guarded { place: p } => same_place(place, p),
            _ => false,
        },
        Op::Closing => matches!(*b, Op::Closing),
        Op::Fenced => matches!(*b, Op::Fenced),
    }
}
