// What events of conversions answer, and what is in the image afterwards. Where objects lie and what their words are comes
// from the format: object lines from 20,577 on, the head's shape in its low half and the number of slots in its high half,
// a word for each slot behind it, and 2 times the line for a reference.
ghost use Rattle.std.specs.Prelude.{◌+◌, ◌≤◌, ◌<◌, ◌^◌, IfOk};
ghost use Rattle.convert_rows.specs.Worlds.{IsWorld};

use crate::world::{INTS, LINES, NODE, Size, World, fails};
use ap_base::ThreadNo;
use convert_words::ConvertStep;
use converter::Begun;
use line_image::{Image, MemoryImage};
use std::alloc::Global;
use std::test::Fail;

/// The first line of objects.
const FIRST: u32 = 20_577;

/// What an event answers, with its set, its thread, or how many lines it needs and how many are left.
type Answer = (&'static str, u64, u64);

fn name(step: ConvertStep) -> Answer {
    match step {
        ConvertStep::Claimed => ("claimed", 0, 0),
        ConvertStep::CopiedLine => ("copied", 0, 0),
        ConvertStep::Forwarded => ("forwarded", 0, 0),
        ConvertStep::Repaired => ("repaired", 0, 0),
        ConvertStep::WroteBack => ("wrote", 0, 0),
        ConvertStep::Fenced => ("fenced", 0, 0),
        ConvertStep::Touched => ("touched", 0, 0),
        ConvertStep::Sealed(set) => ("sealed", set, 0),
        ConvertStep::Wait(u) => ("waits", u64::from(u.number()), 0),
        ConvertStep::Full { need, left } => ("full", u64::from(need), u64::from(left)),
    }
}

fn name_begun(begun: Begun) -> Answer {
    match begun {
        Begun::Claimed => ("claimed", 0, 0),
        Begun::Needs(u) => ("needs", u64::from(u.number()), 0),
        Begun::Full { need, left } => ("full", u64::from(need), u64::from(left)),
    }
}

/// What the next event of a thread answers, of a conversion that it begins with an object, if one is named.
fn answer(world: &mut World, thread: u8, asked: Option<u32>) -> Result<Answer, Fail>
    requires whole { IsWorld world.old.heap.space world.old.heap.memory world.old.heap.marks
        world.old.queue world.old.space world.old.monitors world.old.objects.items }
    ensures whole { IfOk result (λ _. IsWorld world.new.heap.space world.new.heap.memory world.new.heap.marks
        world.new.queue world.new.space world.new.monitors world.new.objects.items) }
{
    let t = ThreadNo::new(thread).ok_or("a thread")?;
    match asked {
        Some(number) => Ok(name_begun(world.begin(t, number)?)),
        None => match world.step(t) {
            Ok(step) => Ok(name(step)),
            Err(_) => Ok(("failed", 0, 0)),
        },
    }
}

/// How often the events of a conversion answered each of its steps.
#[derive(Clone, Copy, Debug, PartialEq, Eq)]
struct Steps {
    claimed: u32,
    copied: u32,
    forwarded: u32,
    repaired: u32,
    wrote: u32,
    fenced: u32,
}

const NONE: Steps = Steps {
    claimed: 0,
    copied: 0,
    forwarded: 0,
    repaired: 0,
    wrote: 0,
    fenced: 0,
};

/// Counts a step.
fn count(steps: &mut Steps, step: ConvertStep) {
    let place = match step {
        ConvertStep::Claimed => &mut steps.claimed,
        ConvertStep::CopiedLine => &mut steps.copied,
        ConvertStep::Forwarded => &mut steps.forwarded,
        ConvertStep::Repaired => &mut steps.repaired,
        ConvertStep::WroteBack => &mut steps.wrote,
        ConvertStep::Fenced => &mut steps.fenced,
        _ => return,
    };
    *place = place.wrapping_add(1);
}

/// The steps of a thread until its group is sealed, and that set; 0 where it comes to none within so many events, waits, or an
/// event fails.
fn run(world: &mut World, t: ThreadNo, most: u32) -> (Steps, u64)
    requires whole { IsWorld world.old.heap.space world.old.heap.memory world.old.heap.marks
        world.old.queue world.old.space world.old.monitors world.old.objects.items }
    ensures whole { IsWorld world.new.heap.space world.new.heap.memory world.new.heap.marks
        world.new.queue world.new.space world.new.monitors world.new.objects.items }
{
    let mut steps = NONE;
    for _ in 0..most {
        match world.step(t) {
            Ok(ConvertStep::Sealed(set)) => return (steps, set),
            Ok(ConvertStep::Wait(_)) | Err(_) => return (steps, 0),
            Ok(step) => count(&mut steps, step),
        }
    }
    (steps, 0)
}

/// An image of zeros with room for so many writes and fences.
fn zeros(alloc: Global, room: u32) -> Result<MemoryImage, Fail> {
    Ok(MemoryImage::new(alloc, u64::from(LINES), fails(alloc, u64::MAX, room))?)
}

/// So many nodes over an image, whose lines from `free` on are left. Each has 1 more than its number in v and the next node
/// in next; the last one has the first, if they are closed.
fn nodes(
    alloc: Global,
    image: MemoryImage,
    free: u32,
    count: u32,
    closed: bool,
) -> Result<World, Fail>
    requires few { count ≤ 10000 }
    ensures whole { IfOk result (λ w. IsWorld w.heap.space w.heap.memory w.heap.marks
        w.queue w.space w.monitors w.objects.items) }
{
    // room for an array of 97,527 elements behind them
    let words = 5 * count + 97_530;
    let mut world = World::open(alloc, image, Size { words, free })?;
    for number in 0..count {
        world.make(NODE, 2)?;
        world.set(number, 0, u64::from(number) + 1)?;
        if number > 0 {
            world.link(number - 1, 1, number)?;
        }
    }
    if !closed || count == 0 {
        return Ok(world);
    }
    world.link(count - 1, 1, 0)?;
    Ok(world)
}

/// The word of an image, if it has one.
fn word(image: &MemoryImage, line: u32, place: u8) -> u64 {
    if u64::from(line) < image.lines() && place < 8 {
        image.word(u64::from(line), place)
    } else {
        u64::MAX
    }
}

/// Whether such nodes lie one a line in the image.
fn are_nodes(image: &MemoryImage, first: u32, count: u32, closed: bool) -> bool
    requires { first + count < 2 ^ 32 }
{
    for number in 0..count {
        let line = first + number;
        let next = if number + 1 < count {
            2 * (u64::from(line) + 1)
        } else if closed {
            2 * u64::from(first)
        } else {
            0
        };
        let words = [
            word(image, line, 0),
            word(image, line, 1),
            word(image, line, 2),
            word(image, line, 3),
        ];
        if words != [0x2_0000_0001, u64::from(number) + 1, next, 0] {
            return false;
        }
    }
    true
}

#[test]
fn cycles_and_long_lists_are_converted(rt: HostRuntime) -> Result<(), Fail> {
    let (alloc, t) = (rt.alloc(), ThreadNo::main());
    for (count, closed) in [(3, true), (1, true), (10_000, false)] {
        let mut world = nodes(alloc, zeros(alloc, 10_001)?, FIRST, count, closed)?;
        let begun = name_begun(world.begin(t, 0)?);
        let ran = run(&mut world, t, 100_000);
        let steps = Steps {
            claimed: count - 1,
            copied: count,
            forwarded: count,
            repaired: count,
            wrote: count,
            fenced: 1,
        };
        let counts = world.counts();
        let image = world.into_image();
        let are_there = are_nodes(&image, FIRST, count, closed);
        assert_eq!(rt;
            (begun, ran, counts, are_there),
            (("claimed", 0, 0), (steps, 1), (0, count), true),
            "{count} nodes"
        );
    }
    Ok(())
}

#[test]
fn an_array_takes_all_lines_or_none(rt: HostRuntime) -> Result<(), Fail> {
    let (alloc, t) = (rt.alloc(), ThreadNo::main());
    let all = Steps {
        claimed: 0,
        copied: 12_191,
        forwarded: 1,
        repaired: 12_191,
        wrote: 12_191,
        fenced: 1,
    };
    // How many elements, what the beginning answers, the steps, how many lines are left, how many objects are durable, and
    // the head in the image. 12,191 lines are left of an image of 32,768.
    for (slots, begun, steps, left, durable, head) in [
        (97_527_u32, ("claimed", 0, 0), all, 0, 1, 97_527_u64 << 32),
        (97_528, ("full", 12_192, 12_191), NONE, 12_191, 0, 0),
    ] {
        let size = Size {
            words: 97_531,
            free: FIRST,
        };
        let mut world = World::open(alloc, zeros(alloc, 12_192)?, size)?;
        world.make(INTS, slots)?;
        let answer = name_begun(world.begin(t, 0)?);
        let ran = run(&mut world, t, 100_000);
        let found = (world.left(), world.counts());
        let image = world.into_image();
        assert_eq!(rt;
            (answer, ran, found, word(&image, FIRST, 0)),
            (begun, (steps, 1), (left, (0, durable)), head),
            "{slots} elements"
        );
    }
    Ok(())
}

/// The first event of a schedule that answers otherwise: its number, and its answer.
fn first_other(
    world: &mut World,
    schedule: &[(u8, Option<u32>, Answer)],
) -> Result<Option<(u32, Answer)>, Fail>
    requires whole { IsWorld world.old.heap.space world.old.heap.memory world.old.heap.marks
        world.old.queue world.old.space world.old.monitors world.old.objects.items }
    ensures whole { IfOk result (λ _. IsWorld world.new.heap.space world.new.heap.memory world.new.heap.marks
        world.new.queue world.new.space world.new.monitors world.new.objects.items) }
{
    let mut number = 0_u32;
    for (thread, asked, expected) in schedule {
        let found = answer(world, *thread, *asked)?;
        if found != *expected {
            return Ok(Some((number, found)));
        }
        number = number.wrapping_add(1);
    }
    Ok(None)
}

/// Nodes 0 and 1 refer to each other. Threads 0 and 1 each convert one of them, and thread 2 asks for node 0.
const OVERLAP: [(u8, Option<u32>, Answer); 22] = [
    (0, Some(0), ("claimed", 0, 0)),
    (1, Some(1), ("claimed", 0, 0)),
    (2, Some(0), ("needs", 0, 0)),
    (0, None, ("copied", 0, 0)),
    (0, None, ("forwarded", 0, 0)),
    // node 1 isn't forwarded
    (0, None, ("waits", 1, 0)),
    (0, None, ("waits", 1, 0)),
    (2, None, ("waits", 0, 0)),
    (1, None, ("copied", 0, 0)),
    (1, None, ("forwarded", 0, 0)),
    (1, None, ("repaired", 0, 0)),
    (1, None, ("wrote", 0, 0)),
    (1, None, ("fenced", 0, 0)),
    // thread 1 needs thread 0, which isn't settled
    (1, None, ("waits", 0, 0)),
    (0, None, ("repaired", 0, 0)),
    (0, None, ("wrote", 0, 0)),
    (2, None, ("waits", 0, 0)),
    (0, None, ("fenced", 0, 0)),
    // one seal for threads 0 and 1; then the others have nothing left
    (1, None, ("sealed", 3, 0)),
    (0, None, ("sealed", 1, 0)),
    (2, None, ("sealed", 4, 0)),
    (1, None, ("sealed", 2, 0)),
];

#[test]
fn threads_that_need_each_other_are_sealed_at_once(rt: HostRuntime) -> Result<(), Fail> {
    let alloc = rt.alloc();
    let mut world = nodes(alloc, zeros(alloc, 4)?, FIRST, 2, true)?;
    let other = first_other(&mut world, &OVERLAP)?;
    let counts = world.counts();
    let image = world
        .into_image()
        .crash(alloc, 0, fails(alloc, u64::MAX, 0))?;
    let are_there = are_nodes(&image, FIRST, 2, true);
    assert_eq!(rt; (other, counts, are_there), (None, (0, 2), true));
    Ok(())
}

/// Node 0 refers to an array for which all lines are needed that were left before the node took one.
const FULL: [(u8, Option<u32>, Answer); 4] = [
    (0, Some(0), ("claimed", 0, 0)),
    (0, None, ("copied", 0, 0)),
    (0, None, ("full", 12_191, 12_190)),
    (0, None, ("full", 12_191, 12_190)),
];

#[test]
fn a_refusal_changes_nothing(rt: HostRuntime) -> Result<(), Fail> {
    let alloc = rt.alloc();
    let mut world = nodes(alloc, zeros(alloc, 4)?, FIRST, 1, false)?;
    world.make(INTS, 97_527)?;
    world.link(0, 1, 1)?;
    let other = first_other(&mut world, &FULL)?;
    let found = (world.left(), world.counts());
    assert_eq!(rt; (other, found), (None, (12_190, (1, 0))));
    Ok(())
}

/// What comes of an int[100] into which another thread stores 5 and 6, at its first and its last element, after so many events of
/// its conversion: how many lines are written in all and how many fences are made, what is sealed, and both elements.
fn stored(alloc: Global, before: u32) -> Result<((u32, u32), u64, (u64, u64), World), Fail> {
    let t = ThreadNo::main();
    let size = Size {
        words: 103,
        free: FIRST,
    };
    let mut world = World::open(alloc, zeros(alloc, 20)?, size)?;
    world.make(INTS, 100)?;
    if name_begun(world.begin(t, 0)?) != ("claimed", 0, 0) {
        return Err(Fail::from("claimed"));
    }
    let (first, _) = run(&mut world, t, before);
    world.store(0, 0, 5)?;
    world.store(0, 99, 6)?;
    let (rest, sealed) = run(&mut world, t, 1_000);
    let counts = (
        first.wrote.wrapping_add(rest.wrote),
        first.fenced.wrapping_add(rest.fenced),
    );
    let elements = (world.read(0, 0)?, world.read(0, 99)?);
    Ok((counts, sealed, elements, world))
}

/// How many of the picks 0 to 2 leave 5 and 6 in the first and the last element of an int[100].
fn picks_with_both(alloc: Global, image: &MemoryImage) -> Result<u32, Fail> {
    let mut count = 0_u32;
    for pick in 0..3 {
        let left = image.crash(alloc, pick, fails(alloc, u64::MAX, 0))?;
        if word(&left, FIRST, 1) == 5 && word(&left, FIRST + 12, 4) == 6 {
            count = count.wrapping_add(1);
        }
    }
    Ok(count)
}

#[test]
fn stores_of_another_thread_are_sealed(rt: HostRuntime) -> Result<(), Fail> {
    let alloc = rt.alloc();
    // After how many events the stores come, how many lines are written and how many fences made: 13 lines are copied, the
    // array forwarded, 13 lines repaired and written, and a fence made. Lines 0 and 12 are written again where they were
    // written before, and fenced again where the fence came before.
    for (before, wrote, fenced) in [
        (0, 13, 1),
        (1, 13, 1),
        (14, 13, 1),
        (27, 13, 1),
        (40, 15, 1),
        (41, 15, 2),
    ] {
        let (counts, sealed, elements, world) = stored(alloc, before)?;
        let both = picks_with_both(alloc, &world.into_image())?;
        assert_eq!(rt;
            (counts, sealed, elements, both),
            ((wrote, fenced), 1, (5, 6), 3),
            "after {before} events"
        );
    }
    Ok(())
}

/// A word of an image: its line, its place in the line, and what it holds.
type Word = (u32, u8, u64);

/// An image whose root slot 0 refers to a node with v 7 at the first line of objects.
const ROOTED: [Word; 7] = [
    (0, 0, 0x5352_4550_4F54_5541),
    (0, 1, 1),
    (0, 2, 32_768),
    (0, 3, 12),
    (1, 0, 2 * 20_577),
    (20_577, 0, 0x2_0000_0001),
    (20_577, 1, 7),
];

/// The words of that image.
fn rooted(alloc: Global) -> Result<Vec<u64>, Fail> {
    let mut words = vec![in alloc; 0; 8 * LINES as usize]?;
    for (line, place, holds) in ROOTED {
        let at = 8 * line as usize + usize::from(place);
        if at < words.len() {
            words[at] = holds;
        }
    }
    Ok(words)
}

/// Whether a line of an image has these words.
fn is_as_before(image: &MemoryImage, words: &[u64], line: u32) -> bool {
    for place in 0..8_u8 {
        let at = 8 * line as usize + usize::from(place);
        if at >= words.len() || word(image, line, place) != words[at] {
            return false;
        }
    }
    true
}

/// How many lines of an image have other words than these: of the first 128, with the root slots, and of the 128 around the
/// first object, without those of three nodes behind it.
fn changed(image: &MemoryImage, words: &[u64]) -> u32 {
    let mut count = 0_u32;
    for number in 0..256 {
        let line = if number < 128 {
            number
        } else {
            number + FIRST - 192
        };
        let is_copy = line > FIRST && line < FIRST + 4;
        if !is_copy && !is_as_before(image, words, line) {
            count = count.wrapping_add(1);
        }
    }
    count
}

/// Converts a cycle of three nodes over that image, with a stop within a call of the image: the set that is sealed, how many
/// other lines are changed by the picks 0 to 7, and by how many of them the nodes are there.
fn stopped(alloc: Global, call: u64) -> Result<(u64, u32, u32), Fail>
    requires { call < 100 }
{
    let words = rooted(alloc)?;
    let since = u64::from(LINES) + call;
    let image = MemoryImage::of_words(alloc, words.as_slice(), fails(alloc, since, 5))?;
    let mut world = nodes(alloc, image, FIRST + 1, 3, true)?;
    world.begin(ThreadNo::main(), 0)?;
    let (_, sealed) = run(&mut world, ThreadNo::main(), 100);
    let image = world.into_image();
    let mut others = 0_u32;
    let mut whole = 0_u32;
    for pick in 0..8 {
        let left = image.crash(alloc, pick, fails(alloc, u64::MAX, 0))?;
        others = others.wrapping_add(changed(&left, words.as_slice()));
        if are_nodes(&left, FIRST + 1, 3, true) {
            whole = whole.wrapping_add(1);
        }
    }
    Ok((sealed, others, whole))
}

#[test]
fn a_stop_leaves_what_roots_reach_and_all_that_is_sealed(rt: HostRuntime) -> Result<(), Fail> {
    let alloc = rt.alloc();
    // The conversion makes four calls: it writes three lines and fences. Within the fence the picks 0 and 1 leave none and all
    // of what was written.
    for (call, sealed, all) in [
        (1, 0, false),
        (2, 0, false),
        (3, 0, false),
        (4, 0, false),
        (5, 1, true),
    ] {
        let (found, others, whole) = stopped(alloc, call)?;
        assert_eq!(rt;
            (found, others, whole == 8),
            (sealed, 0, all),
            "a stop within call {call}"
        );
    }
    Ok(())
}
