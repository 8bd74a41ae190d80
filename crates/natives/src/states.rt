// A built-in method in progress.
ghost use Rattle.std.specs.Prelude.{◌≡◌};
ghost use Rattle.natives.specs.Positions.{asks_at, next_at};
ghost use Rattle.natives.specs.States.{request_of, started, moved_of, step_of, state_after};
ghost use Rattle.natives.specs.Coded.{items};

use crate::beginnings::begins_at;
use crate::positions::{Called, Moved, Position};
use crate::{Native, Reply, Request};
use ap_base::{Item, Ref};
use run_types::{At, Known};

/// A built-in method in progress: a few registers of plain data.
#[derive(Clone, Copy)]
pub struct NativeState<R = Ref> {
    pub(crate) known: Known,
    pub(crate) from: At,
    /// Whether its first request was asked.
    pub(crate) is_begun: bool,
    pub(crate) position: Position<R>,
}

/// What a built-in method does next.
#[derive(Drop)]
pub enum NativeStep<R = Ref, V = Item> {
    Ask(Request<R, V>),
    /// Calls the method that the lookup from this class on finds, and waits for what it gives back.
    Call {
        method: Called,
        class: u32,
        receiver: R,
    },
    /// Has ended, and gives this back.
    Return(Option<V>),
}

impl Position {
    pub(crate) fn request(&self, known: &Known, from: At) -> Request
        ensures { result ≡ asks_at items known.now from self.now }
    {
        match self {
            Position::Single(single) => single.request(known, from),
            Position::Equality(equality) => equality.request(known, from),
            Position::ObjectText(object) => object.request(known, from),
            Position::NewBuilder(builder) => builder.request(known, from),
            Position::Append(append) => append.request(known, from),
            Position::Copies(copies) => copies.request(known, from),
            Position::BuiltText(text) => text.request(known, from),
            Position::Printing(printing) => printing.request(known, from),
            Position::Running(running) => running.request(known, from),
        }
    }

    pub(crate) fn next(&self, reply: &Reply) -> Moved
        ensures { result ≡ next_at items self.now reply.now }
    {
        match self {
            Position::Single(single) => single.next(reply),
            Position::Equality(equality) => equality.next(reply),
            Position::ObjectText(object) => object.next(reply),
            Position::NewBuilder(builder) => builder.next(reply),
            Position::Append(append) => append.next(reply),
            Position::Copies(copies) => copies.next(reply),
            Position::BuiltText(text) => text.next(reply),
            Position::Printing(printing) => printing.next(reply),
            Position::Running(running) => running.next(reply),
        }
    }
}

impl NativeState {
    /// The method, given its arguments, of which the first is the receiver unless the method is
    /// static. All its requests come from `from`.
    pub fn start(method: Native, known: &Known, from: At, args: &[Item]) -> NativeState
        ensures { result ≡ started items method known.now from args.now }
    {
        NativeState {
            known: *known,
            from,
            is_begun: false,
            position: begins_at(method, args),
        }
    }

    /// The request for whose reply it waits, or its first one; Pause where it waits for a method
    /// that it called.
    pub fn request(&self) -> Request
        ensures { result ≡ request_of items self.now }
    {
        self.position.request(&self.known, self.from)
    }
}

/// Goes on by the reply to the last request, or by what a method gave back that it called, as an
/// item, or Done. The reply before the first request says nothing.
pub fn next_request(state: &mut NativeState, reply: &Reply) -> NativeStep
    ensures step { result ≡ step_of items state.old (moved_of items state.old reply.now) }
    ensures state { state.new ≡ state_after state.old (moved_of items state.old reply.now) }
{
    let moved = if state.is_begun {
        state.position.next(reply)
    } else {
        Moved::Asks(state.position)
    };
    match moved {
        Moved::Asks(position) => {
            state.is_begun = true;
            state.position = position;
            NativeStep::Ask(state.request())
        }
        Moved::Calls {
            position,
            called,
            class,
            receiver,
        } => {
            state.is_begun = true;
            state.position = position;
            NativeStep::Call {
                method: called,
                class,
                receiver,
            }
        }
        Moved::Gives(value) => NativeStep::Return(value),
    }
}
