// Rows are played, step by step.
use crate::commands::play_command;
use crate::given::push;
use crate::judging::{Case, put_judged, set_word};
use crate::leaving::{put_left, recover};
use crate::numbers::{Number, set_number};
use crate::running::Done;
use crate::script::{Fails, Given, Step, Times, header, step_of};
use crate::showing::{calls_before, put_shown};
use crate::texts::{put_line, put_lost};
use crate::world::{
    Failing, Held, MOST, World, copied, fail, first_other, held_image, put_image, stopped, store,
    zeros,
};
use run_fixture::word_of;
use std::alloc::{AllocError, Global};
use std::sync::Wait;
use std::thread::Threads;

/// An image gets what a stop leaves of another.
fn stop(
    alloc: Global,
    images: &mut Vec<Held>,
    name: &str,
    pick: u64,
    left: &str,
) -> Result<bool, AllocError> {
    let Some(image) = stopped(alloc, images, name, pick)? else {
        return Ok(false);
    };
    put_image(alloc, images, left, image)?;
    Ok(true)
}

/// A word of an image is changed.
fn change(
    alloc: Global,
    images: &mut Vec<Held>,
    name: &str,
    (line, word, value): (u64, u64, u64),
) -> Result<bool, AllocError> {
    let Some(mut image) = copied(alloc, images, name)? else {
        return Ok(false);
    };
    store(&mut image, line, word, value);
    put_image(alloc, images, name, image)?;
    Ok(true)
}

fn put_word(
    alloc: Global,
    out: &mut String,
    images: &[Held],
    name: &str,
    (line, word): (u64, u64),
) -> Result<(), AllocError> {
    let Some(held) = held_image(images, name) else {
        return put_lost(out, name);
    };
    let word = u8::try_from(word).unwrap_or(u8::MAX);
    match word_of(&held.image, line, word) {
        Some(holds) => put_line(out, format!(in alloc; "{holds}")?.as_str()),
        None => put_line(out, "no word"),
    }
}

fn put_same(
    alloc: Global,
    out: &mut String,
    images: &[Held],
    name: &str,
    other: &str,
) -> Result<(), AllocError> {
    let Some(one) = held_image(images, name) else {
        return put_lost(out, name);
    };
    let Some(two) = held_image(images, other) else {
        return put_lost(out, other);
    };
    match first_other(&one.image, &two.image) {
        None => put_line(out, "the same"),
        Some(line) => put_line(out, format!(in alloc; "line {line} differs")?.as_str()),
    }
}

fn set_fails(world: &mut World, what: Fails<'_>, failing: Failing) {
    match what {
        Fails::Source => world.source.fail_at(failing.call),
        Fails::Records => world.records.fail_at(failing.call),
        Fails::Sink => world.sink.1 = failing.call,
        Fails::Image(name) => fail(&mut world.images, name, failing),
    }
}

fn give(alloc: Global, world: &mut World, given: Given<'_>) -> Result<(), AllocError> {
    if let Given::History | Given::Record(_) = given {
        return push(
            alloc,
            &mut world.records,
            &world.texts,
            &world.history,
            given,
        );
    }
    push(
        alloc,
        &mut world.source,
        &world.texts,
        &world.history,
        given,
    )
}

/// Bytes of a history are left out.
fn cut_out(history: &mut Vec<u8>, from: u64, to: u64) -> Result<(), AllocError> {
    let alloc = *history.allocator();
    let mut kept = Vec::new(alloc);
    for (at, byte) in history.iter().enumerate() {
        let at = at as u64;
        if at < from || to <= at {
            kept.push(*byte)?;
        }
    }
    *history = kept;
    Ok(())
}

/// Where a history says how many acts it has.
const COUNT: usize = 16;

/// An image is opened, which stays where it was.
fn open(alloc: Global, images: &mut Vec<Held>, name: &str) -> Result<bool, AllocError> {
    let Some(image) = copied(alloc, images, name)? else {
        return Ok(false);
    };
    let image = recover(alloc, image)?;
    put_image(alloc, images, name, image)?;
    Ok(true)
}

fn mark(
    alloc: Global,
    numbers: &mut Vec<Number>,
    last: &Option<Done>,
    (name, op, which): (&str, &str, u64),
) -> Result<(), AllocError> {
    let Some(done) = last else {
        return Ok(());
    };
    let calls = calls_before(alloc, &done.acts, op, which)?;
    set_number(alloc, numbers, name, calls)
}

/// A step that prints nothing. Whether it could be made.
fn prepared(alloc: Global, world: &mut World, step: &Step<'_>) -> Result<bool, AllocError> {
    match *step {
        Step::Blank { image, lines } => {
            put_image(alloc, &mut world.images, image, zeros(alloc, lines)?)?;
        }
        Step::Stop { image, pick, left } => {
            return stop(alloc, &mut world.images, image, pick, left);
        }
        Step::Store {
            image,
            line,
            word,
            value,
        } => return change(alloc, &mut world.images, image, (line, word, value)),
        Step::Fails { what, call, once } => set_fails(world, what, Failing { call, once }),
        Step::Give(given) => give(alloc, world, given)?,
        Step::Sink { most } => world.sink.0 = most.max(1),
        Step::Cut { from, to } => cut_out(&mut world.history, from, to)?,
        Step::Count { acts } => set_word(world.history.as_mut_slice(), COUNT, acts),
        Step::Recover { image } => return open(alloc, &mut world.images, image),
        Step::Mark { name, op, which } => {
            mark(alloc, &mut world.numbers, &world.last, (name, op, which))?;
        }
        _ => return Ok(false),
    }
    Ok(true)
}

/// A step that prints what is found.
fn found(
    alloc: Global,
    world: &mut World,
    step: &Step<'_>,
    out: &mut String,
) -> Result<(), AllocError> {
    match *step {
        Step::Word { image, line, word } => {
            put_word(alloc, out, &world.images, image, (line, word))
        }
        Step::Same { image, other } => put_same(alloc, out, &world.images, image, other),
        Step::Left {
            device,
            from,
            to,
            texts,
        } => put_left(alloc, out, world, device, (from, to), texts),
        Step::Judge {
            before,
            image,
            call,
            from,
            to,
            listing,
        } => {
            let case = Case {
                before,
                image,
                listing,
            };
            put_judged(alloc, out, world, &case, call, (from, to))
        }
        Step::Show(shown) => match &mut world.last {
            Some(done) => put_shown(alloc, out, done, shown),
            None => put_lost(out, "no run"),
        },
        _ => put_lost(out, "no step"),
    }
}

fn play<R>(
    rt: &R,
    alloc: Global,
    world: &mut World,
    step: &Step<'_>,
    out: &mut String,
) -> Result<(), AllocError>
where
    R: Threads + Wait + Clone + Send + Sync + Drop,
{
    if let Step::Do(command) = step {
        return play_command(rt, alloc, world, *command, out);
    }
    if prepared(alloc, world, step)? {
        return Ok(());
    }
    found(alloc, world, step, out)
}

fn play_line<R>(
    rt: &R,
    alloc: Global,
    world: &mut World,
    line: &str,
    out: &mut String,
) -> Result<(), AllocError>
where
    R: Threads + Wait + Clone + Send + Sync + Drop,
{
    if line.is_empty() || line.starts_with('#') {
        return Ok(());
    }
    match step_of(&world.numbers, line) {
        Some(step) => play(rt, alloc, world, &step, out),
        None => put_lost(out, line),
    }
}

/// The lines of a row, with a sink that takes as many bytes as if nothing was said.
fn play_lines<R>(
    rt: &R,
    alloc: Global,
    world: &mut World,
    lines: &str,
    out: &mut String,
) -> Result<(), AllocError>
where
    R: Threads + Wait + Clone + Send + Sync + Drop,
{
    world.sink = (MOST, u64::MAX);
    for line in lines.lines() {
        play_line(rt, alloc, world, line, out)?;
    }
    Ok(())
}

/// What a row prints for numbers that follow one another, where it is the same.
#[derive(Drop)]
struct Group {
    from: u64,
    to: u64,
    told: String,
}

/// Puts a row's name with the numbers of a group, and what it prints for them.
fn put_group(alloc: Global, out: &mut String, name: &str, group: &Group) -> Result<(), AllocError> {
    let Group { from, to, told } = group;
    if from == to {
        put_line(out, format!(in alloc; "== {name} {from}")?.as_str())?;
    } else {
        put_line(out, format!(in alloc; "== {name} {from} {to}")?.as_str())?;
    }
    out.push_str(told.as_str())
}

/// Adds what a row prints for one more number to its last group, or puts that and begins another one.
fn add_to(
    alloc: Global,
    out: &mut String,
    name: &str,
    group: &mut Group,
    (n, told): (u64, String),
) -> Result<(), AllocError> {
    if group.told.as_str() != told.as_str() {
        put_group(alloc, out, name, group)?;
        group.from = n;
        group.told = told;
    }
    group.to = n;
    Ok(())
}

/// What the lines of a row print for a number `n`.
fn told_for<R>(
    rt: &R,
    alloc: Global,
    world: &mut World,
    lines: &str,
    n: u64,
) -> Result<String, AllocError>
where
    R: Threads + Wait + Clone + Send + Sync + Drop,
{
    set_number(alloc, &mut world.numbers, "n", n)?;
    let mut told = String::new(alloc);
    play_lines(rt, alloc, world, lines, &mut told)?;
    Ok(told)
}

/// The lines of a row for each number `n`.
fn play_times<R>(
    rt: &R,
    alloc: Global,
    world: &mut World,
    (name, lines): (&str, &str),
    times: &Times,
    out: &mut String,
) -> Result<(), AllocError>
where
    R: Threads + Wait + Clone + Send + Sync + Drop,
{
    let from = times.from;
    let told = told_for(rt, alloc, world, lines, from)?;
    let mut group = Group {
        from,
        to: from,
        told,
    };
    for i in 1..times.count {
        let n = from.saturating_add(times.step.saturating_mul(i));
        let told = told_for(rt, alloc, world, lines, n)?;
        add_to(alloc, out, name, &mut group, (n, told))?;
    }
    put_group(alloc, out, name, &group)
}

/// Puts what a row prints: its name, and what its steps print.
pub(crate) fn play_row<R>(
    rt: &R,
    alloc: Global,
    world: &mut World,
    row: &str,
    out: &mut String,
) -> Result<(), AllocError>
where
    R: Threads + Wait + Clone + Send + Sync + Drop,
{
    let (line, lines) = row.split_once('\n').unwrap_or((row, ""));
    let (name, times) = header(line);
    if let Some(times) = times {
        return play_times(rt, alloc, world, (name, lines), &times, out);
    }
    put_line(out, format!(in alloc; "== {name}")?.as_str())?;
    play_lines(rt, alloc, world, lines, out)
}
