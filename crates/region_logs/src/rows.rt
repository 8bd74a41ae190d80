// A thread's regions over an image in memory: who has guarded a word, until the outermost region has ended.
ghost use Rattle.std.specs.Prelude.{◌≡◌, ◌<◌, ◌≤◌, true, IsTrue, IfOk};
ghost use Rattle.image_meaning.specs.Logs.{may_be_logged};
ghost use Rattle.region_log.specs.declared.entry.Underway.TheVariants.{Nothing};
ghost use Rattle.region_log.specs.Kept.{KeepsLog};
ghost use Rattle.region_log.specs.Stages.{CanEnd};
ghost use Rattle.region_logs.specs.Logs.{log_at, empty_log};

use crate::Logs;
use ap_base::{Spot, ThreadNo};
use line_image::{Fails, Image, MemoryImage};
use line_memory::LineMemory;
use region_log::{EndStep, LogStep, a_log_begins_empty};
use std::alloc::Global;
use std::test::Fail;

const LINES: u32 = 32_768;

/// The word that counts the entries of log 0.
const HEAD: Spot = Spot {
    line: 4_129,
    word: 0,
};

/// A word of an object's line.
const WORD: Spot = Spot {
    line: 20_577,
    word: 1,
};

/// A memory over an image of zeros.
fn attached(alloc: Global) -> Result<LineMemory<MemoryImage>, Fail>
    ensures keeps { IfOk result (λ memory. KeepsLog (empty_log 0) memory) }
    ensures size { IfOk result (λ memory. memory.size ≡ LINES) }
{
    let fails = Fails {
        calls: Vec::new(alloc),
        since: u64::MAX,
        room: 100,
    };
    let image = MemoryImage::new(alloc, u64::from(LINES), fails)?;
    let memory = match LineMemory::attach(alloc, image) {
        Ok(memory) => memory,
        Err(_) => return Err(Fail::from("attached")),
    };
    if !memory.resident(HEAD.line) || memory.load(HEAD) != 0 {
        return Err(Fail::from("blank"));
    }
    a_log_begins_empty();
    Ok(memory)
}

/// Guards the word for a thread, and logs it by the four calls that it takes: whether it is logged.
fn log_word<I: Image>(logs: &mut Logs, t: ThreadNo, memory: &mut LineMemory<I>) -> bool
    requires within { LINES ≤ logs.old.lines }
    requires size { LINES ≤ memory.old.size }
    requires idle { (log_at logs.old t).underway ≡ Nothing }
    requires open { 0 < (log_at logs.old t).depth }
    requires keeps { KeepsLog (log_at logs.old t) memory.old }
    ensures lines { logs.new.lines ≡ logs.old.lines }
    ensures idle { IsTrue result → (log_at logs.new t).underway ≡ Nothing }
    ensures depth { IsTrue result → (log_at logs.new t).depth ≡ (log_at logs.old t).depth }
    ensures keeps { IsTrue result → KeepsLog (log_at logs.new t) memory.new }
{
    if logs.is_full(t) || logs.guard_of(WORD).is_some() {
        return false;
    }
    logs.guard(t, WORD, 0);
    for _call in 0..4 {
        match logs.log_next(t, memory) {
            Ok(LogStep::Logged) => return true,
            Ok(LogStep::More) => {}
            _ => return false,
        }
    }
    false
}

/// Ends the inner one of two regions of a thread: whether it has ended at once.
fn end_inner<I: Image>(logs: &mut Logs, t: ThreadNo, memory: &mut LineMemory<I>) -> bool
    requires idle { (log_at logs.old t).underway ≡ Nothing }
    requires open { (log_at logs.old t).depth ≡ 2 }
    requires keeps { KeepsLog (log_at logs.old t) memory.old }
    ensures lines { logs.new.lines ≡ logs.old.lines }
    ensures idle { (log_at logs.new t).underway ≡ Nothing }
    ensures depth { (log_at logs.new t).depth ≡ 1 }
    ensures keeps { KeepsLog (log_at logs.new t) memory.new }
{
    matches!(logs.end_next(t, memory), Ok(EndStep::Ended))
}

/// Ends the only region of a thread, by the four calls that it takes: whether it has ended.
fn end_outer<I: Image>(logs: &mut Logs, t: ThreadNo, memory: &mut LineMemory<I>) -> bool
    requires idle { (log_at logs.old t).underway ≡ Nothing }
    requires open { (log_at logs.old t).depth ≡ 1 }
    requires keeps { KeepsLog (log_at logs.old t) memory.old }
    ensures lines { logs.new.lines ≡ logs.old.lines }
{
    for _call in 0..4 {
        match logs.end_next(t, memory) {
            Ok(EndStep::Ended) => return true,
            Ok(_) => {}
            Err(_) => return false,
        }
    }
    false
}

#[test]
fn a_word_is_guarded_until_the_outermost_region_has_ended(rt: HostRuntime) -> Result<(), Fail> {
    let alloc = rt.alloc();
    let mut memory = attached(alloc)?;
    let mut logs = Logs::reserve(alloc, LINES)?;
    let main = ThreadNo::main();
    let first = logs.guard_of(WORD);
    logs.begin(main);
    logs.begin(main);
    if !log_word(&mut logs, main, &mut memory) {
        return Err(Fail::from("logged"));
    }
    let logged = (logs.guard_of(WORD), logs.depth(main), logs.is_empty(main));
    let inner = end_inner(&mut logs, main, &mut memory);
    let left = (logs.guard_of(WORD), logs.depth(main), logs.is_ending(main));
    let outer = end_outer(&mut logs, main, &mut memory);
    let last = (logs.guard_of(WORD), logs.depth(main), logs.is_empty(main));
    assert_eq!(rt; first, None);
    assert_eq!(rt; logged, (Some(main), 2, false));
    assert_eq!(rt; (inner, left), (true, (Some(main), 1, false)));
    assert_eq!(rt; (outer, last), (true, (None, 0, true)));
    Ok(())
}
