// Events of threads by stated choices.
ghost use Rattle.std.specs.Prelude.{OnOk};
ghost use Rattle.thread_rows.specs.Playing.{IsPlaying};

use crate::choices::{Choice, choice_of};
use crate::endings::{Ended, ended_by};
use crate::texts::op_name;
use ap_base::{MemorySink, NoGate, ThreadNo};
use class_set::ClassSet;
use durable_launch::{Run, Stepped, is_live, step};
use line_image::MemoryImage;
use program_host::ProgramHost;
use run_history::{Acts, NoWatch};
use run_types::On;
use set_types::SetTypes;

/// The most events that a thread has up to an act.
const MOST: u32 = 10_000;

pub(crate) type Playing = Run<MemoryImage, MemorySink, NoWatch>;

/// How the last event went.
#[derive(Clone, Copy)]
pub(crate) enum Went {
    Acted,
    Micro,
    Waits(On),
    /// The thread doesn't live.
    NotLive,
    /// The act didn't come, or the choice is none.
    Lost,
}

/// An event of a thread, if it lives; or how the run has ended by it.
fn event(
    run: &mut Playing,
    classes: &ClassSet,
    set: &SetTypes,
    host: &ProgramHost,
    t: ThreadNo,
) -> Result<Went, Ended>
    requires playing { IsPlaying set.now host.now run.old.heap run.old.frames.items }
    ensures playing { OnOk result (IsPlaying set.now host.now run.new.heap run.new.frames.items) }
{
    if !is_live(run.heap.threads(), t) {
        return Ok(Went::NotLive);
    }
    match step(run, set, host, &NoGate, t) {
        Stepped::Acted => Ok(Went::Acted),
        Stepped::Micro => Ok(Went::Micro),
        Stepped::WouldWait(on) => Ok(Went::Waits(on)),
        Stepped::Over(halt) => Err(ended_by(classes, run, halt)),
    }
}

// Whether what is looked for came behind so many acts, or the thread has ended.
fn has_come(acts: &Acts, before: u32, went: &Went, name: &str) -> bool {
    match went {
        Went::NotLive | Went::Lost => true,
        Went::Waits(_) => name == "wait",
        Went::Acted | Went::Micro => match acts.get(before) {
            Some(act) => op_name(&act.op) == name,
            None => false,
        },
    }
}

// An event of a thread; how it went, if what is looked for came by it.
fn until(
    run: &mut Playing,
    classes: &ClassSet,
    set: &SetTypes,
    host: &ProgramHost,
    t: ThreadNo,
    name: &str,
) -> Result<Option<Went>, Ended>
    requires playing { IsPlaying set.now host.now run.old.heap run.old.frames.items }
    ensures playing { OnOk result (IsPlaying set.now host.now run.new.heap run.new.frames.items) }
{
    let before = run.heap.acts().len();
    let went = event(run, classes, set, host, t)?;
    if has_come(run.heap.acts(), before, &went, name) {
        return Ok(Some(went));
    }
    Ok(None)
}

// The events of a thread up to an act of this name.
fn as_far_as(
    run: &mut Playing,
    classes: &ClassSet,
    set: &SetTypes,
    host: &ProgramHost,
    t: ThreadNo,
    name: &str,
) -> Result<Went, Ended>
    requires playing { IsPlaying set.now host.now run.old.heap run.old.frames.items }
    ensures playing { OnOk result (IsPlaying set.now host.now run.new.heap run.new.frames.items) }
{
    for _ in 0..MOST {
        if let Some(went) = until(run, classes, set, host, t, name)? {
            return Ok(went);
        }
    }
    Ok(Went::Lost)
}

// An event of a thread, or its events up to an act.
fn once(
    run: &mut Playing,
    classes: &ClassSet,
    set: &SetTypes,
    host: &ProgramHost,
    choice: &Choice<'_>,
) -> Result<Went, Ended>
    requires playing { IsPlaying set.now host.now run.old.heap run.old.frames.items }
    ensures playing { OnOk result (IsPlaying set.now host.now run.new.heap run.new.frames.items) }
{
    match choice.name {
        Some(name) => as_far_as(run, classes, set, host, choice.thread, name),
        None => event(run, classes, set, host, choice.thread),
    }
}

// A choice, as often as it says.
fn chosen(
    run: &mut Playing,
    classes: &ClassSet,
    set: &SetTypes,
    host: &ProgramHost,
    choice: &Choice<'_>,
) -> Result<Went, Ended>
    requires playing { IsPlaying set.now host.now run.old.heap run.old.frames.items }
    ensures playing { OnOk result (IsPlaying set.now host.now run.new.heap run.new.frames.items) }
{
    let mut went = Went::Lost;
    for _ in 0..choice.many {
        went = once(run, classes, set, host, choice)?;
    }
    Ok(went)
}

// The events of the choices of a line, one after another.
fn play(
    run: &mut Playing,
    classes: &ClassSet,
    set: &SetTypes,
    host: &ProgramHost,
    line: &str,
) -> Result<Went, Ended>
    requires playing { IsPlaying set.now host.now run.old.heap run.old.frames.items }
    ensures playing { OnOk result (IsPlaying set.now host.now run.new.heap run.new.frames.items) }
{
    let mut went = Went::Lost;
    for word in line.split_whitespace() {
        let Some(choice) = choice_of(word) else {
            return Ok(Went::Lost);
        };
        went = chosen(run, classes, set, host, &choice)?;
    }
    Ok(went)
}

/// How many acts and calls of the image there were.
#[derive(Clone, Copy)]
pub(crate) struct Counts {
    pub(crate) acts: u32,
    pub(crate) calls: u64,
}

pub(crate) fn counts_of(run: &Playing) -> Counts {
    Counts {
        acts: run.heap.acts().len(),
        calls: run.heap.calls(),
    }
}

/// The events of the lines, one line after another. Before each line the acts and calls are counted.
pub(crate) fn play_lines(
    run: &mut Playing,
    classes: &ClassSet,
    set: &SetTypes,
    host: &ProgramHost,
    lines: &[&str],
    before: &mut Counts,
) -> Result<Went, Ended>
    requires playing { IsPlaying set.now host.now run.old.heap run.old.frames.items }
{
    let mut went = Went::Lost;
    for line in lines {
        *before = counts_of(run);
        went = play(run, classes, set, host, line)?;
    }
    Ok(went)
}
