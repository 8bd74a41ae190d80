// The texts of objects.
ghost use Rattle.std.specs.Prelude.{◌≡◌};
ghost use Rattle.natives.specs.Positions.{begins, object_asks, object_next};
ghost use Rattle.natives.specs.Coded.{items};

use crate::positions::{Append, Called, Moved, ObjectText, Position, Printing, Purpose};
use crate::replies::{class_in, is_yes, reference_in};
use crate::texts::{Text, string_text};
use crate::{Reply, Request};
use run_types::{At, Known};

/// A text is appended or printed.
pub(crate) fn begins(purpose: Purpose, text: Text) -> Position
    ensures { result ≡ begins items purpose text }
{
    match purpose {
        Purpose::Append(to) => Position::Append(Append::Count { to, text }),
        Purpose::Print(to) => Position::Printing(Printing::Enter { to, text }),
    }
}

impl ObjectText {
    pub(crate) fn request(&self, known: &Known, from: At) -> Request
        ensures { result ≡ object_asks items known.now from self.now }
    {
        match *self {
            ObjectText::IsString { object, .. } => Request::IsA {
                from,
                object,
                target: known.string,
            },
            ObjectText::Class { object, .. } => Request::ClassOf {
                from,
                object,
                within: known.object,
            },
            ObjectText::Result(_) => Request::Pause,
        }
    }

    pub(crate) fn next(&self, reply: &Reply) -> Moved
        ensures { result ≡ object_next items self.now reply.now }
    {
        match *self {
            ObjectText::IsString { purpose, object } if is_yes(reply) => {
                Moved::Asks(begins(purpose, Text::String(object)))
            }
            ObjectText::IsString { purpose, object } => {
                Moved::Asks(Position::ObjectText(ObjectText::Class { purpose, object }))
            }
            ObjectText::Class { purpose, object } => Moved::Calls {
                position: Position::ObjectText(ObjectText::Result(purpose)),
                called: Called::ToString,
                class: class_in(reply),
                receiver: object,
            },
            ObjectText::Result(purpose) => Moved::Asks(begins(
                purpose,
                string_text(reference_in(reply)),
            )),
        }
    }
}
