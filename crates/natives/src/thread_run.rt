// `Thread.run`.
ghost use Rattle.std.specs.Prelude.{◌≡◌};
ghost use Rattle.natives.specs.Positions.{running_asks, running_next, runs_target};
ghost use Rattle.natives.specs.Coded.{items};

use crate::fields::target_field;
use crate::positions::{Called, Moved, Position, Running};
use crate::replies::{class_in, is_null, reference_in};
use crate::{Reply, Request};
use ap_base::Ref;
use run_types::{At, Known};

// A target that isn't null runs.
fn runs_target(target: Ref) -> Moved
    ensures { result ≡ runs_target items target }
{
    if is_null(target) {
        Moved::Gives(None)
    } else {
        Moved::Asks(Position::Running(Running::Class(target)))
    }
}

impl Running {
    pub(crate) fn request(&self, known: &Known, from: At) -> Request
        ensures { result ≡ running_asks items known.now from self.now }
    {
        match *self {
            Running::Target(thread) => Request::GetField {
                from,
                holder: thread,
                field: target_field(known),
            },
            Running::Class(target) => Request::ClassOf {
                from,
                object: target,
                within: known.runnable,
            },
            Running::Result => Request::Pause,
        }
    }

    pub(crate) fn next(&self, reply: &Reply) -> Moved
        ensures { result ≡ running_next items self.now reply.now }
    {
        match *self {
            Running::Target(_) => runs_target(reference_in(reply)),
            Running::Class(target) => Moved::Calls {
                position: Position::Running(Running::Result),
                called: Called::Run,
                class: class_in(reply),
                receiver: target,
            },
            Running::Result => Moved::Gives(None),
        }
    }
}
