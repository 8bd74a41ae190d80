// The built-in methods as frames have them.

ghost use Rattle.std.specs.Prelude.{◌≡◌, [], ◌∷◌, reverse, slice_get};
ghost use Rattle.natives.specs.Coded.{items};
ghost use Rattle.frame_thread.specs.Views.{native_step, called, receiver_given};
ghost use Rattle.plain_frames.specs.Methods.{start, method_of, given_back};
ghost use Rattle.plain_frames.specs.Coded.{item_given};
ghost use Rattle.program_host.specs.Steps.{item_of, argument_of, step_in};

use ap_base::{Item, Ref};
use frame_thread::{Advance, Callee};
use frames::Given;
use natives::{Called, Native, NativeState, NativeStep, Reply, next_request};
use run_types::{At, Known};

fn item(value: Given<Ref>) -> Item
    ensures { result ≡ item_of value }
{
    match value {
        Given::Nothing => Item::Int(0),
        Given::Int(i) => Item::Int(i),
        Given::Long(i) => Item::Long(i),
        Given::Reference(r) => Item::Ref(r),
    }
}

/// The argument at a place, of arguments with the last one first. One that isn't there is null.
pub(crate) fn argument(arguments: &[Given<Ref>], place: usize) -> Item
    ensures { result ≡ argument_of (slice_get (reverse arguments.now) place) }
{
    if place < arguments.len() {
        item(arguments[arguments.len() - 1 - place])
    } else {
        Item::Ref(Ref::Null)
    }
}

/// The receiver, or null where there is none.
pub(crate) fn this(receiver: Option<Ref>) -> Item
    ensures { result ≡ argument_of (slice_get (receiver_given receiver) 0) }
{
    match receiver {
        Some(object) => Item::Ref(object),
        None => Item::Ref(Ref::Null),
    }
}

/// A method that has asked its first request. None reads more than two arguments.
pub(crate) fn begun(method: Native, known: &Known, from: At, arguments: [Item; 2]) -> NativeState
    ensures { result ≡ start items item_given known.now method from arguments }
{
    let mut state = NativeState::start(method, known, from, &arguments);
    let _first = next_request(&mut state, &Reply::Done);
    state
}

fn callee(method: Called) -> Callee
    ensures { called result ≡ method_of method }
{
    match method {
        Called::Run => Callee::Run,
        Called::ToString => Callee::ToString,
    }
}

/// What an item is to the method that it is given back to.
pub(crate) fn given(item: &Item) -> Given<Ref>
    ensures { result ≡ item_given item.now }
{
    match *item {
        Item::Int(i) => Given::Int(i),
        Item::Long(i) => Given::Long(i),
        Item::Ref(r) => Given::Reference(r),
    }
}

fn given_back(value: Option<Item>) -> Given<Ref>
    ensures { result ≡ given_back item_given value }
{
    match value {
        Some(item) => given(&item),
        None => Given::Nothing,
    }
}

/// The next step of a method that is then in this state.
pub(crate) fn advance(step: NativeStep, state: NativeState) -> Advance<Ref, NativeState>
    ensures { native_step result ≡ step_in state step }
{
    match step {
        NativeStep::Ask(_) => Advance::Asks(state),
        NativeStep::Call {
            method,
            class,
            receiver,
        } => Advance::Calls {
            state,
            callee: callee(method),
            class,
            receiver,
        },
        NativeStep::Return(value) => Advance::Gives(given_back(value)),
    }
}
