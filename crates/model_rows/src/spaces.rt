//! Spaces, states of volatile objects and monitors, with values worked out by hand.

ghost use Rattle.std.specs.Prelude.{◌≡◌, ◌<◌, length};

use ap_base::{Ref, ThreadNo};
use forwarding::{Claimed, claim, resolve, set_forward};
use monitors::{Enter, MOST_MONITORS, Monitors, NotOwner};
use object_header::{State, state_of, state_word};
use persist_space::PersistSpace;
use run_types::Key;
use std::alloc::{AllocError, Global};
use std::test::Fail;
use volatile_space::VolatileSpace;

#[test]
fn words_are_taken_one_after_another(rt: HostRuntime) -> Result<(), Fail> {
    let mut space = VolatileSpace::reserve(rt.alloc(), 9)?;
    let taken = [
        space.take(4),
        space.take(6),
        space.take(5),
        space.take(1),
        space.take(0),
    ];
    assert!(rt; taken == [Some(0), None, Some(4), None, Some(9)], "words");
    assert!(rt; space.left() == 0, "no word is left");
    Ok(())
}

#[test]
fn lines_are_taken_one_after_another(rt: HostRuntime) -> Result<(), Fail> {
    let mut space = PersistSpace::new(20_577, 20_580);
    let taken = [space.take(2), space.take(2), space.take(1), space.take(1)];
    let past = PersistSpace::new(20_581, 20_580).left();
    assert!(rt; taken == [Some(20_577), None, Some(20_579), None], "lines");
    assert!(rt; space.left() == 0 && past == 0, "no line is left");
    Ok(())
}

#[test]
fn words_of_states(rt: HostRuntime) -> Result<(), Fail> {
    let last = ThreadNo::new(63).ok_or("63 is a thread")?;
    for (word, state) in [
        (0, Some(State::Ordinary)),
        (0x1f9, Some(State::Claimed(last))),
        (0x5061_0000_01fa, Some(State::Copying(last, 20_577))),
        (
            0x5061_0000_0003,
            Some(State::Converted(ThreadNo::main(), 20_577)),
        ),
        (0xffff_ffff_0000_0004, Some(State::Durable(u32::MAX))),
        (5, None),
        (8, None),
        (0x201, None),
        (0x1_0000_0001, None),
        (0xc, None),
    ] {
        assert!(rt; state_of(word) == state, "the word {word}");
    }
    assert!(rt; state_word(State::Copying(last, 20_577)) == 0x5061_0000_01fa);
    Ok(())
}

// What comes of a claim, where the index has the word of a state.
fn claimed(space: &mut VolatileSpace, object: u32, thread: ThreadNo) -> Option<Claimed>
    requires taken { object < length space.old.words }
    ensures long { length space.new.words ≡ length space.old.words }
{
    state_of(space.word(object))?;
    Some(claim(space, object, thread))
}

// Forwards an object, if it is copied.
fn forward(space: &mut VolatileSpace, object: u32)
    requires taken { object < length space.old.words }
    ensures long { length space.new.words ≡ length space.old.words }
{
    if let Some(State::Copying(_, line)) = state_of(space.word(object)) {
        set_forward(space, object, line);
    }
}

// Where an object's words are read, if it has a state.
fn resolved(space: &VolatileSpace, object: u32) -> Option<Ref>
    requires taken { object < length space.now.words }
{
    state_of(space.word(object))?;
    Some(resolve(space, Ref::Volatile(object)))
}

// Where the words are read of an object at index 0 in this state, and after its forward if it is copied.
fn read_at(alloc: Global, state: State) -> Result<Option<(Ref, Ref)>, AllocError> {
    let mut space = VolatileSpace::reserve(alloc, 4)?;
    let Some(object) = space.take(4) else {
        return Ok(None);
    };
    space.set(object, state_word(state));
    let Some(before) = resolved(&space, object) else {
        return Ok(None);
    };
    forward(&mut space, object);
    match resolved(&space, object) {
        Some(after) => Ok(Some((before, after))),
        None => Ok(None),
    }
}

#[test]
fn an_object_is_claimed_once(rt: HostRuntime) -> Result<(), Fail> {
    let other = ThreadNo::new(1).ok_or("1 is a thread")?;
    let mut space = VolatileSpace::reserve(rt.alloc(), 9)?;
    let at = space.take(4).ok_or("4 of 9 words")?;
    let first = claimed(&mut space, at, other);
    let again = claimed(&mut space, at, ThreadNo::main());
    space.set(at, state_word(State::Durable(20_577)));
    let sealed = claimed(&mut space, at, other);
    let are_right = first == Some(Claimed::Now)
        && again == Some(Claimed::By(other))
        && sealed == Some(Claimed::Already);
    assert!(rt; are_right, "three claims");
    Ok(())
}

#[test]
fn a_forward_leads_to_the_copy(rt: HostRuntime) -> Result<(), Fail> {
    let space = VolatileSpace::reserve(rt.alloc(), 9)?;
    let (old, copy) = (Ref::Volatile(0), Ref::Persistent(20_577));
    for (state, want) in [
        (State::Ordinary, (old, old)),
        (State::Claimed(ThreadNo::main()), (old, old)),
        (State::Copying(ThreadNo::main(), 20_577), (old, copy)),
        (State::Converted(ThreadNo::main(), 20_577), (copy, copy)),
        (State::Durable(20_577), (copy, copy)),
    ] {
        assert!(rt; read_at(rt.alloc(), state)? == Some(want), "{state:?}");
    }
    let are_same = resolve(&space, Ref::Null) == Ref::Null && resolve(&space, copy) == copy;
    assert!(rt; are_same, "null and a copy lead to themselves");
    Ok(())
}

/// The number of the thread that holds a monitor, where another thread enters it; 64 where no more may be held.
fn holder(monitors: &mut Monitors, thread: u8, key: Key) -> Option<u8> {
    match monitors.enter(ThreadNo::new(thread)?, key) {
        Enter::Taken => None,
        Enter::Held(thread) => Some(thread.number()),
        Enter::Full => Some(64),
    }
}

/// Whether a thread leaves a monitor that it holds.
fn is_left(monitors: &mut Monitors, thread: u8, key: Key) -> bool {
    match ThreadNo::new(thread) {
        Some(thread) => monitors.exit(thread, key).is_ok(),
        None => false,
    }
}

const HERE: Key = Key::Object(Ref::Volatile(5));

const THERE: Key = Key::Object(Ref::Persistent(5));

/// A class that has the number of two objects.
const CLASS: Key = Key::Class(5);

/// Threads that enter a monitor, one after another, and who holds it.
static ENTERS: [(u8, Key, Option<u8>); 6] = [
    (0, HERE, None),
    (1, HERE, Some(0)),
    (0, HERE, None),
    (1, THERE, None),
    (1, CLASS, None),
    (0, CLASS, Some(1)),
];

/// Threads that then leave one, and whether they hold it.
static EXITS: [(u8, Key, bool); 6] = [
    (1, HERE, false),
    (0, HERE, true),
    (0, HERE, true),
    (0, HERE, false),
    (1, THERE, true),
    (1, CLASS, true),
];

#[test]
fn monitors_have_an_owner_and_a_count(rt: HostRuntime) -> Result<(), Fail> {
    let mut monitors = Monitors::reserve(rt.alloc())?;
    for (thread, key, want) in &ENTERS {
        assert!(rt;
            holder(&mut monitors, *thread, *key) == *want,
            "{thread} enters {key:?}"
        );
    }
    for (thread, key, want) in &EXITS {
        assert!(rt;
            is_left(&mut monitors, *thread, *key) == *want,
            "{thread} leaves {key:?}"
        );
    }
    Ok(())
}

#[test]
fn a_monitor_keeps_its_owner_under_another_key(rt: HostRuntime) -> Result<(), Fail> {
    let (a, b) = (ThreadNo::main(), ThreadNo::new(1).ok_or("1 is a thread")?);
    let (old, new) = (
        Key::Object(Ref::Volatile(5)),
        Key::Object(Ref::Persistent(20_577)),
    );
    let mut monitors = Monitors::reserve(rt.alloc())?;
    let entered = monitors.enter(a, old);
    monitors.rekey(old, new);
    let other = monitors.enter(b, new);
    assert_eq!(rt;
        (entered, other, monitors.exit(a, old)),
        (Enter::Taken, Enter::Held(a), Err(NotOwner))
    );
    Ok(())
}

/// Whether the first thread enters as many monitors as may be held.
fn are_all_taken(monitors: &mut Monitors) -> bool {
    let mut all = true;
    for n in 0..MOST_MONITORS as u32 {
        let entered = monitors.enter(ThreadNo::main(), Key::Class(n * 3));
        all = all && entered == Enter::Taken;
    }
    all
}

#[test]
fn as_many_monitors_are_held_as_may_be(rt: HostRuntime) -> Result<(), Fail> {
    let mut monitors = Monitors::reserve(rt.alloc())?;
    let are_right = are_all_taken(&mut monitors)
        && holder(&mut monitors, 0, Key::Class(1)) == Some(64)
        && holder(&mut monitors, 0, Key::Class(3 * 17)).is_none();
    assert!(rt; are_right, "no further monitor, but one again");
    Ok(())
}
