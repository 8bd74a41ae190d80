// What replies and arguments hold.
ghost use Rattle.std.specs.Prelude.{◌≡◌};
ghost use Rattle.natives.specs.Values.{int_in, reference_in, is_yes, int_at, long_at, reference_at, item_in, class_in};
ghost use Rattle.natives.specs.Values.{printed_in, char_of};
ghost use Rattle.natives.specs.Coded.{items, next_index, is_null, int_of, reference_of};

use super::Reply;
use ap_base::{Item, Ref};

fn int_of(item: &Item) -> i32
    ensures { result ≡ int_of item.now }
{
    match *item {
        Item::Int(i) => i,
        _ => 0,
    }
}

/// Whether a reference is null.
pub(crate) fn is_null(reference: Ref) -> bool
    ensures { result ≡ is_null reference }
{
    matches!(reference, Ref::Null)
}

fn reference_of(item: &Item) -> Ref
    ensures { result ≡ reference_of item.now }
{
    match *item {
        Item::Ref(r) => r,
        _ => Ref::Null,
    }
}

pub(crate) fn int_in(reply: &Reply) -> i32
    ensures { result ≡ int_in items reply.now }
{
    match reply {
        Reply::Item(item) => int_of(item),
        _ => 0,
    }
}

pub(crate) fn is_yes(reply: &Reply) -> bool
    ensures { result ≡ is_yes items reply.now }
{
    int_in(reply) != 0
}

pub(crate) fn reference_in(reply: &Reply) -> Ref
    ensures { result ≡ reference_in items reply.now }
{
    match reply {
        Reply::Item(item) => reference_of(item),
        Reply::Made(object) => *object,
        _ => Ref::Null,
    }
}

pub(crate) fn item_in(reply: &Reply) -> Option<Item>
    ensures { result ≡ item_in reply.now }
{
    match reply {
        Reply::Item(item) => Some(*item),
        _ => None,
    }
}

pub(crate) fn class_in(reply: &Reply) -> u32
    ensures { result ≡ class_in reply.now }
{
    match reply {
        Reply::Shape(class) => *class,
        _ => 0,
    }
}

pub(crate) fn printed_in(reply: &Reply) -> u32
    ensures { result ≡ printed_in reply.now }
{
    match reply {
        Reply::Printed(count) => *count,
        _ => 0,
    }
}

pub(crate) fn int_at(args: &[Item], place: usize) -> i32
    ensures { result ≡ int_at items args.now place }
{
    match args.get(place) {
        Some(item) => int_of(item),
        None => 0,
    }
}

pub(crate) fn long_at(args: &[Item], place: usize) -> i64
    ensures { result ≡ long_at items args.now place }
{
    match args.get(place) {
        Some(Item::Long(i)) => *i,
        _ => 0,
    }
}

pub(crate) fn reference_at(args: &[Item], place: usize) -> Ref
    ensures { result ≡ reference_at items args.now place }
{
    match args.get(place) {
        Some(item) => reference_of(item),
        None => Ref::Null,
    }
}

/// The lowest 16 bits (JVMS 6.5, i2c).
pub(crate) fn char_of(i: i32) -> u16
    ensures { result ≡ char_of i }
{
    (i.cast_unsigned() % 65_536) as u16
}

/// The index after one, where it is below an end.
pub(crate) fn next_index(at: i32, end: i32) -> Option<i32>
    ensures { result ≡ next_index at end }
{
    if at < end {
        let next = at + 1;
        if next < end { Some(next) } else { None }
    } else {
        None
    }
}
