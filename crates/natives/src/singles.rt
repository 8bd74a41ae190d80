// Methods of one request.
ghost use Rattle.std.specs.Prelude.{◌≡◌};
ghost use Rattle.natives.specs.Positions.{single_asks, single_next};
ghost use Rattle.natives.specs.Coded.{items};

use crate::fields::{message_field, target_field};
use crate::positions::{Moved, Single};
use crate::replies::item_in;
use crate::{Reply, Request};
use ap_base::{Item, Kind};
use run_types::{At, Known};

impl Single {
    pub(crate) fn request(&self, known: &Known, from: At) -> Request
        ensures { result ≡ single_asks items known.now from self.now }
    {
        match *self {
            Single::Same(pair) => Request::Same {
                from,
                left: pair.left,
                right: pair.right,
            },
            Single::Length(text) => Request::Length { from, array: text },
            Single::CharAt { text, index } => Request::GetElement {
                from,
                array: text,
                index,
                kind: Kind::Text,
            },
            Single::SetTarget { thread, target } => Request::PutField {
                from,
                holder: thread,
                field: target_field(known),
                value: Item::Ref(target),
            },
            Single::Start(thread) => Request::Start { from, thread },
            Single::Join(thread) => Request::Join { from, thread },
            Single::SetMessage { throwable, message } => Request::PutField {
                from,
                holder: throwable,
                field: message_field(known),
                value: Item::Ref(message),
            },
            Single::Message(throwable) => Request::GetField {
                from,
                holder: throwable,
                field: message_field(known),
            },
            Single::Begin => Request::Begin { from },
            Single::End => Request::End { from },
        }
    }

    pub(crate) fn next(&self, reply: &Reply) -> Moved
        ensures { result ≡ single_next items self.now reply.now }
    {
        Moved::Gives(item_in(reply))
    }
}
