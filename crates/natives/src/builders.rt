// StringBuilder: its constructors, `append` and `toString`.
ghost use Rattle.std.specs.Prelude.{◌≡◌, ◌+◌, pos, slice_index};
ghost use Rattle.natives.specs.Scripts.{larger, sum};
ghost use Rattle.natives.specs.Texts.{chars_of};
ghost use Rattle.natives.specs.Positions.{copies_from, new_asks, new_next, appends_if, append_asks, append_next, puts_from};
ghost use Rattle.natives.specs.Positions.{writes, makes_room, measures, given_back, built_asks, built_next};
ghost use Rattle.natives.specs.Coded.{items};

use crate::chars_copy::copies_from;
use crate::fields::{count_field, value_field};
use crate::positions::{
    Append, Appending, Builder, BuiltText, Copied, Copying, Moved, NewBuilder, Position,
};
use crate::replies::{int_in, reference_in};
use crate::texts::{Spelling, Text};
use crate::{Reply, Request};
use ap_base::{Item, Kind, Ref};
use run_types::{At, Known};

fn waits(append: Append) -> Moved
    ensures { result ≡ Moved.Asks (Position.Append append) }
{
    Moved::Asks(Position::Append(append))
}

fn appends_if(builder: Ref, text: Option<Text>) -> Moved
    ensures { result ≡ appends_if items builder text }
{
    match text {
        None => Moved::Gives(None),
        Some(text) => waits(Append::Count {
            to: Builder {
                builder,
                is_new: true,
            },
            text,
        }),
    }
}

impl NewBuilder {
    pub(crate) fn request(&self, known: &Known, from: At) -> Request
        ensures { result ≡ new_asks items known.now from self.now }
    {
        match *self {
            NewBuilder::Array { .. } => Request::NewArray {
                from,
                shape: known.chars,
                length: 16,
            },
            NewBuilder::Value { builder, array, .. } => Request::PutField {
                from,
                holder: builder,
                field: value_field(known),
                value: Item::Ref(array),
            },
        }
    }

    pub(crate) fn next(&self, reply: &Reply) -> Moved
        ensures { result ≡ new_next items self.now reply.now }
    {
        match *self {
            NewBuilder::Array { builder, text } => {
                let array = reference_in(reply);
                Moved::Asks(Position::NewBuilder(NewBuilder::Value {
                    builder,
                    text,
                    array,
                }))
            }
            NewBuilder::Value { builder, text, .. } => appends_if(builder, text),
        }
    }
}

// The chars of a text that isn't a String are put from an index on.
fn puts_from(to: Builder, array: Ref, count: i32, spelling: Spelling, at: u8) -> Moved
    ensures { result ≡ puts_from items to array count spelling at }
{
    let length = spelling.length();
    if at < length {
        waits(Append::Char {
            to,
            array,
            count,
            spelling,
            at,
        })
    } else {
        waits(Append::Total {
            to,
            total: count.wrapping_add(i32::from(length)),
        })
    }
}

fn puts_after(to: Builder, array: Ref, count: i32, spelling: Spelling, at: u8) -> Moved
    ensures { result ≡ puts_from items to array count spelling (at + 1) }
{
    match at.checked_add(1) {
        Some(after) => puts_from(to, array, count, spelling, after),
        None => waits(Append::Total {
            to,
            total: count.wrapping_add(i32::from(spelling.length())),
        }),
    }
}

// There is room for the text.
fn writes(appending: Appending, length: i32) -> Moved
    ensures { result ≡ writes items appending appending.text length }
{
    let Appending {
        to,
        text,
        count,
        array,
    } = appending;
    match text {
        Text::Spelled(spelling) => puts_from(to, array, count, spelling, 0),
        Text::String(text) => copies_from(Copying {
            source: text,
            target: array,
            at: 0,
            end: length,
            after: Copied::Appended { to, count },
        }),
    }
}

// The capacity of a builder that needs a larger array.
fn larger(capacity: i32, total: i32) -> i32
    ensures { result ≡ larger capacity total }
{
    let doubled = capacity.wrapping_add(capacity).wrapping_add(2);
    if doubled < total { total } else { doubled }
}

fn makes_room(appending: Appending, length: i32, capacity: i32) -> Moved
    ensures { result ≡ makes_room items appending length capacity }
{
    let total = appending.count.wrapping_add(length);
    if capacity < total {
        waits(Append::Larger {
            appending,
            length,
            capacity: larger(capacity, total),
        })
    } else {
        writes(appending, length)
    }
}

fn measures(appending: Appending, capacity: i32) -> Moved
    ensures { result ≡ measures items appending appending.text capacity }
{
    let text = appending.text;
    match text {
        Text::Spelled(spelling) => makes_room(appending, i32::from(spelling.length()), capacity),
        Text::String(text) => waits(Append::Length {
            appending,
            text,
            capacity,
        }),
    }
}

// The larger array gets the old chars.
fn grows(appending: Appending, length: i32, array: Ref) -> Moved
    ensures { result ≡ copies_from items (record {
      source = appending.array;
      target = array;
      at = pos 0;
      end = appending.count;
      after = Copied.Larger appending.to appending.text appending.count length;
    }) }
{
    copies_from(Copying {
        source: appending.array,
        target: array,
        at: 0,
        end: appending.count,
        after: Copied::Larger {
            to: appending.to,
            text: appending.text,
            count: appending.count,
            length,
        },
    })
}

fn given_back(to: Builder) -> Option<Item>
    ensures { result ≡ given_back items to }
{
    if to.is_new {
        None
    } else {
        Some(Item::Ref(to.builder))
    }
}

// Puts a char of a text that isn't a String.
fn char_request(from: At, array: Ref, count: i32, spelling: Spelling, at: u8) -> Request
    ensures { result ≡ Request.PutElement from array (sum count (pos at)) Kind.C
        (Item.Int (pos (slice_index (chars_of spelling) at))) }
{
    Request::PutElement {
        from,
        array,
        index: count.wrapping_add(i32::from(at)),
        kind: Kind::C,
        value: Item::Int(i32::from(spelling.char_at(at).unwrap_or(0))),
    }
}

impl Append {
    pub(crate) fn request(&self, known: &Known, from: At) -> Request
        ensures { result ≡ append_asks items known.now from self.now }
    {
        match *self {
            Append::Count { to, .. } => Request::GetField {
                from,
                holder: to.builder,
                field: count_field(known),
            },
            Append::Array { to, .. } => Request::GetField {
                from,
                holder: to.builder,
                field: value_field(known),
            },
            Append::Capacity(appending) => Request::Length {
                from,
                array: appending.array,
            },
            Append::Length { text, .. } => Request::Length { from, array: text },
            Append::Larger { capacity, .. } => Request::NewArray {
                from,
                shape: known.chars,
                length: capacity,
            },
            Append::Value { appending, .. } => Request::PutField {
                from,
                holder: appending.to.builder,
                field: value_field(known),
                value: Item::Ref(appending.array),
            },
            Append::Char {
                array,
                count,
                spelling,
                at,
                ..
            } => { char_request(from, array, count, spelling, at) }
            Append::Total { to, total } => Request::PutField {
                from,
                holder: to.builder,
                field: count_field(known),
                value: Item::Int(total),
            },
        }
    }

    pub(crate) fn next(&self, reply: &Reply) -> Moved
        ensures { result ≡ append_next items self.now reply.now }
    {
        match *self {
            Append::Count { to, text } => waits(Append::Array {
                to,
                text,
                count: int_in(reply),
            }),
            Append::Array { to, text, count } => waits(Append::Capacity(Appending {
                to,
                text,
                count,
                array: reference_in(reply),
            })),
            Append::Capacity(appending) => measures(appending, int_in(reply)),
            Append::Length {
                appending,
                capacity,
                ..
            } => makes_room(appending, int_in(reply), capacity),
            Append::Larger {
                appending,
                length,
                ..
            } => grows(appending, length, reference_in(reply)),
            Append::Value { appending, length } => writes(appending, length),
            Append::Char {
                to,
                array,
                count,
                spelling,
                at,
            } => puts_after(to, array, count, spelling, at),
            Append::Total { to, .. } => Moved::Gives(given_back(to)),
        }
    }
}

impl BuiltText {
    pub(crate) fn request(&self, known: &Known, from: At) -> Request
        ensures { result ≡ built_asks items known.now from self.now }
    {
        match *self {
            BuiltText::Count(builder) => Request::GetField {
                from,
                holder: builder,
                field: count_field(known),
            },
            BuiltText::Array { builder, .. } => Request::GetField {
                from,
                holder: builder,
                field: value_field(known),
            },
            BuiltText::Text { count, .. } => Request::NewText {
                from,
                length: count,
            },
        }
    }

    pub(crate) fn next(&self, reply: &Reply) -> Moved
        ensures { result ≡ built_next items self.now reply.now }
    {
        match *self {
            BuiltText::Count(builder) => {
                let count = int_in(reply);
                Moved::Asks(Position::BuiltText(BuiltText::Array { builder, count }))
            }
            BuiltText::Array { count, .. } => {
                let array = reference_in(reply);
                Moved::Asks(Position::BuiltText(BuiltText::Text { array, count }))
            }
            BuiltText::Text { array, count } => copies_from(Copying {
                source: array,
                target: reference_in(reply),
                at: 0,
                end: count,
                after: Copied::Built,
            }),
        }
    }
}
