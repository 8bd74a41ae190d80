// Claims and forwards.
ghost use Rattle.std.specs.Prelude.{◌≡◌, ◌≢◌, ℕ, slice_set};
ghost use Rattle.object_header.specs.States.{header_word};
ghost use Rattle.object_header.specs.declared.state.State.{State as ObjectState};
ghost use Rattle.forwarding.specs.Forwards.{HasState, IsObject, LeadsTo, Resolves, claim_answer};

use ap_base::{Ref, ThreadNo};
use object_header::{State, state_of, state_word};
use volatile_space::VolatileSpace;

/// What comes of a claim.
#[derive(Clone, Copy, Debug, PartialEq, Eq)]
pub enum Claimed {
    /// The thread has claimed it now.
    Now,
    /// A thread holds it, and hasn't sealed it; it may be the one that asks.
    By(ThreadNo),
    /// It is durable.
    Already,
}

/// The state of the object at an index.
pub fn state_at(space: &VolatileSpace, object: u32) -> State
    requires object { IsObject space.now.words object }
    ensures state { HasState space.now.words object result }
    ensures again { (s : ObjectState) → HasState space.now.words object s → result ≡ s }
{
    let Some(state) = state_of(space.word(object)) else {
        unreachable!()
    };
    state
}

/// Claims an ordinary object for a thread. An object that was claimed before stays as it is.
pub fn claim(space: &mut VolatileSpace, object: u32, thread: ThreadNo) -> Claimed
    requires object { IsObject space.old.words object }
    ensures answer { (s : ObjectState) → HasState space.old.words object s → result ≡ claim_answer s }
    ensures claimed { result ≡ Claimed.Now
        → space.new.words ≡ slice_set space.old.words object (header_word (State.Claimed thread)) }
    ensures same { result ≢ Claimed.Now → space.new.words ≡ space.old.words }
    ensures left { space.new.left ≡ space.old.left }
{
    match state_at(space, object) {
        State::Ordinary => {
            space.set(object, state_word(State::Claimed(thread)));
            Claimed::Now
        }
        State::Claimed(u) | State::Copying(u, _) | State::Converted(u, _) => Claimed::By(u),
        State::Durable(_) => Claimed::Already,
    }
}

/// Forwards an object whose copy is whole: from now on its references lead to the copy, which begins at
/// that line.
pub fn set_forward(space: &mut VolatileSpace, object: u32, line: u32)
    requires copying { (u : ℕ) × HasState space.old.words object (State.Copying u line) }
    ensures forwarded { (u : ℕ) → HasState space.old.words object (State.Copying u line)
        → space.new.words ≡ slice_set space.old.words object (header_word (State.Converted u line)) }
    ensures left { space.new.left ≡ space.old.left }
{
    if let State::Copying(thread, first) = state_at(space, object) {
        space.set(object, state_word(State::Converted(thread, first)));
    }
}

/// The reference to the place where an object's words are read: its copy from the forward on.
pub fn resolve(space: &VolatileSpace, r: Ref) -> Ref
    requires object { LeadsTo space.now.words r }
    ensures resolved { Resolves space.now.words r result }
{
    let Ref::Volatile(object) = r else {
        return r;
    };
    match state_at(space, object) {
        State::Ordinary | State::Claimed(_) | State::Copying(_, _) => r,
        State::Converted(_, line) | State::Durable(line) => Ref::Persistent(line),
    }
}
