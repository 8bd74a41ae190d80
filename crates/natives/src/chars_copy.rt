// Copying chars from an array or a String to another one.
ghost use Rattle.std.specs.Prelude.{◌≡◌, pos, ◌+ℤ◌};
ghost use Rattle.natives.specs.Positions.{read_kind, put_kind, put_from, copies_asks, copies_from, copied_to, copies_next};
ghost use Rattle.natives.specs.Coded.{items};

use crate::positions::{Append, Appending, Copied, Copies, Copying, Moved, Position};
use crate::replies::{int_in, next_index};
use crate::{Reply, Request};
use ap_base::{Item, Kind, Ref};
use run_types::{At, Known};

impl Copied {
    fn read_kind(&self) -> Kind
        ensures { result ≡ read_kind self.now }
    {
        match self {
            Copied::Larger { .. } | Copied::Built => Kind::C,
            Copied::Appended { .. } => Kind::Text,
        }
    }

    fn put_kind(&self) -> Kind
        ensures { result ≡ put_kind self.now }
    {
        match self {
            Copied::Larger { .. } | Copied::Appended { .. } => Kind::C,
            Copied::Built => Kind::Text,
        }
    }

    // The index at which the first char is put.
    fn put_from(&self) -> i32
        ensures { result ≡ put_from self.now }
    {
        match self {
            Copied::Appended { count, .. } => *count,
            _ => 0,
        }
    }

    // Once all chars are in the target.
    fn next(self, target: Ref, end: i32) -> Moved
        ensures { result ≡ copied_to items target end self }
    {
        match self {
            Copied::Larger {
                to,
                text,
                count,
                length,
            } => {
                let appending = Appending {
                    to,
                    text,
                    count,
                    array: target,
                };
                Moved::Asks(Position::Append(Append::Value { appending, length }))
            }
            Copied::Appended { to, count } => Moved::Asks(Position::Append(Append::Total {
                to,
                total: count.wrapping_add(end),
            })),
            Copied::Built => Moved::Gives(Some(Item::Ref(target))),
        }
    }
}

/// Chars are copied, if any are left.
pub(crate) fn copies_from(copying: Copying) -> Moved
    ensures { result ≡ copies_from items copying }
{
    if copying.at < copying.end {
        Moved::Asks(Position::Copies(Copies::Read(copying)))
    } else {
        copying.after.next(copying.target, copying.end)
    }
}

// The chars after one are copied.
fn copies_after(copying: Copying) -> Moved
    ensures { result ≡ copies_from items (record copying { at = copying.at +ℤ pos 1 }) }
{
    match next_index(copying.at, copying.end) {
        Some(at) => Moved::Asks(Position::Copies(Copies::Read(Copying { at, ..copying }))),
        None => copying.after.next(copying.target, copying.end),
    }
}

impl Copies {
    pub(crate) fn request(&self, known: &Known, from: At) -> Request
        ensures { result ≡ copies_asks items known.now from self.now }
    {
        match *self {
            Copies::Read(copying) => Request::GetElement {
                from,
                array: copying.source,
                index: copying.at,
                kind: copying.after.read_kind(),
            },
            Copies::Put { copying, char } => Request::PutElement {
                from,
                array: copying.target,
                index: copying.after.put_from().wrapping_add(copying.at),
                kind: copying.after.put_kind(),
                value: Item::Int(char),
            },
        }
    }

    pub(crate) fn next(&self, reply: &Reply) -> Moved
        ensures { result ≡ copies_next items self.now reply.now }
    {
        match *self {
            Copies::Read(copying) => Moved::Asks(Position::Copies(Copies::Put {
                copying,
                char: int_in(reply),
            })),
            Copies::Put { copying, .. } => copies_after(copying),
        }
    }
}
