// A region over an image: its log, what it logs and its end, and what a stop within each call leaves.
ghost use Rattle.std.specs.Prelude.{◌≡◌, ◌≢◌, ◌<◌, ◌+◌, ◌++◌, ◌∷◌, [], ℕ, true, IsTrue, IfOk};
ghost use Rattle.image_meaning.specs.Logs.{may_be_logged};
ghost use Rattle.line_memory.specs.Memory.{IsResident};
ghost use Rattle.region_log.specs.declared.entry.Underway.TheVariants.{Nothing};
ghost use Rattle.region_log.specs.Kept.{KeepsLog};
ghost use Rattle.region_log.specs.Log.{IsLogged};

use ap_base::{Spot, ThreadNo};
use line_image::{Fails, Image, MemoryImage};
use line_memory::LineMemory;
use region_log::{EndStep, LogStep, RegionLog, a_log_begins_empty, others_keep_a_log};
use std::alloc::Global;
use std::test::Fail;

const LINES: u64 = 32_768;

const LINE: u32 = 20_577;

/// The word that counts the entries of log 0.
const HEAD: Spot = Spot {
    line: 4_129,
    word: 0,
};

/// Whether the image has the line and it is resident.
fn is_ready<I: Image>(memory: &LineMemory<I>, line: u32) -> bool
    ensures within { IsTrue result → line < memory.now.size }
    ensures resident { IsTrue result → IsResident memory.now line }
{
    u64::from(line) < memory.lines() && memory.resident(line)
}

/// What a read gives in a word.
fn read(image: &MemoryImage, line: u64, word: u8) -> u64 {
    if line < image.lines() && word < 8 {
        image.word(line, word)
    } else {
        u64::MAX
    }
}

fn none_fails(alloc: Global) -> Fails {
    Fails {
        calls: Vec::new(alloc),
        since: u64::MAX,
        room: 0,
    }
}

/// A memory over an image of zeros that fails from a call on, and the log of thread 0 with a region open.
fn begun(alloc: Global, since: u64) -> Result<(LineMemory<MemoryImage>, RegionLog), Fail>
    ensures keeps { IfOk result (λ both. KeepsLog both.1 both.0) }
    ensures fresh { IfOk result (λ both. (both.1.underway ≡ Nothing) × (both.1.entries ≡ []) × (both.1.depth ≡ 1)) }
    ensures size { IfOk result (λ both. both.0.size ≡ LINES) }
{
    let fails = Fails {
        calls: Vec::new(alloc),
        since,
        room: 100,
    };
    let image = MemoryImage::new(alloc, LINES, fails)?;
    let memory = match LineMemory::attach(alloc, image) {
        Ok(memory) => memory,
        Err(_) => return Err(Fail::from("attached")),
    };
    let mut log = RegionLog::new(alloc, ThreadNo::main())?;
    if !is_ready(&memory, 4_129) || memory.load(HEAD) != 0 {
        return Err(Fail::from("blank"));
    }
    a_log_begins_empty();
    log.begin();
    Ok((memory, log))
}

/// Logs a word of the object line with 0, by all the calls that it takes: `true` once it is logged.
fn log_word<I: Image>(log: &mut RegionLog, memory: &mut LineMemory<I>, spot: Spot) -> bool
    requires keeps { KeepsLog log.old memory.old }
    requires nothing { log.old.underway ≡ Nothing }
    requires open { 0 < log.old.depth }
    requires place { may_be_logged memory.old.size spot.line ≡ true }
    requires unlogged { ¬ IsLogged log.old.entries spot }
    ensures keeps { IsTrue result → KeepsLog log.new memory.new }
    ensures nothing { IsTrue result → log.new.underway ≡ Nothing }
    ensures entries { IsTrue result → (old : ℕ) × (log.new.entries
        ≡ log.old.entries ++ record { spot = spot; old = old } ∷ []) }
    ensures depth { IsTrue result → log.new.depth ≡ log.old.depth }
    ensures thread { IsTrue result → log.new.thread ≡ log.old.thread }
    ensures size { IsTrue result → memory.new.size ≡ memory.old.size }
{
    if !is_ready(memory, spot.line) {
        return false;
    }
    let old = memory.load(spot);
    for _call in 0..4 {
        match log.log_next(memory, spot, old) {
            Ok(LogStep::Logged) => return log.logged(spot),
            Ok(LogStep::More) => {}
            _ => return false,
        }
    }
    false
}

/// Stores to a word of the object line, if that is resident.
fn store<I: Image>(log: &RegionLog, memory: &mut LineMemory<I>, spot: Spot, word: u64)
    requires keeps { KeepsLog log.now memory.old }
    requires outside { LINE ≡ spot.line }
    ensures keeps { KeepsLog log.now memory.new }
    ensures size { memory.new.size ≡ memory.old.size }
{
    others_keep_a_log();
    if is_ready(memory, spot.line) {
        memory.store(spot, word);
    }
}

/// Ends the region, by all the calls that it takes: whether they were made.
fn end<I: Image>(log: &mut RegionLog, memory: &mut LineMemory<I>) -> bool
    requires keeps { KeepsLog log.old memory.old }
    requires nothing { log.old.underway ≡ Nothing }
    requires open { log.old.depth ≡ 1 }
{
    for _call in 0..8 {
        match log.end_next(memory) {
            Ok(EndStep::Ended) => return true,
            Ok(_) => {}
            Err(_) => return false,
        }
    }
    false
}

/// A region with two stores into one line, 1 and 2 over zeros, ended: whether all calls were made.
fn run<I: Image>(log: &mut RegionLog, memory: &mut LineMemory<I>) -> bool
    requires keeps { KeepsLog log.old memory.old }
    requires nothing { log.old.underway ≡ Nothing }
    requires open { log.old.depth ≡ 1 }
    requires empty { log.old.entries ≡ [] }
    requires size { memory.old.size ≡ LINES }
{
    let first = Spot {
        line: LINE,
        word: 1,
    };
    let second = Spot {
        line: LINE,
        word: 2,
    };
    if !log_word(log, memory, first) {
        return false;
    }
    store(log, memory, first, 1);
    if !log_word(log, memory, second) {
        return false;
    }
    store(log, memory, second, 2);
    end(log, memory)
}

/// The two words that a stop leaves by this pick, once the log's counted entries are put back.
fn put_back(image: &MemoryImage) -> [u64; 2] {
    let head = 4_129;
    let mut words = [
        read(image, u64::from(LINE), 1),
        read(image, u64::from(LINE), 2),
    ];
    let count = read(image, head, 0);
    for entry in 0..2 {
        let place = read(image, head + 1, 2 * entry);
        let old = read(image, head + 1, 2 * entry + 1);
        if u64::from(entry) < count && place == 8 * u64::from(LINE) + 1 {
            words[0] = old;
        }
        if u64::from(entry) < count && place == 8 * u64::from(LINE) + 2 {
            words[1] = old;
        }
    }
    words
}

#[test]
fn a_stop_leaves_a_region_whole_or_not_at_all(rt: HostRuntime) -> Result<(), Fail> {
    let alloc = rt.alloc();
    // The call within which the stop falls, whether the region ended, and whether one of the picks 0 to 7 leaves
    // neither store, both, and something else: four calls for each logging, one for each word written back, the fence,
    // the count, the fence.
    let rows = [
        (1_u8, false, (true, false, false)),
        (2, false, (true, false, false)),
        (3, false, (true, false, false)),
        (4, false, (true, false, false)),
        (5, false, (true, false, false)),
        (6, false, (true, false, false)),
        (7, false, (true, false, false)),
        (8, false, (true, false, false)),
        (9, false, (true, false, false)),
        (10, false, (true, false, false)),
        (11, false, (true, false, false)),
        (12, false, (true, true, false)),
        (13, false, (true, true, false)),
        (14, true, (false, true, false)),
    ];
    for (call, ended, left) in rows {
        let (mut memory, mut log) = begun(alloc, LINES + u64::from(call))?;
        let ran = run(&mut log, &mut memory);
        let image = memory.into_image();
        let mut found = (false, false, false);
        for pick in 0..8 {
            match put_back(&image.crash(alloc, pick, none_fails(alloc))?) {
                [0, 0] => found.0 = true,
                [1, 2] => found.1 = true,
                _ => found.2 = true,
            }
        }
        assert_eq!(rt; (call, ran, found), (call, ended, left));
    }
    Ok(())
}
