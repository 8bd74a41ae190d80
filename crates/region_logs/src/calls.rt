// The parts of a logging and of a region's end, over one thread's log and the table of guards.
ghost use Rattle.std.specs.Prelude.{◌≡◌, ◌<◌, true, Some};
ghost use Rattle.ap_base.specs.Causes.{HasCause};
ghost use Rattle.region_log.specs.declared.entry.Entry.{Entry as LogEntry};
ghost use Rattle.region_log.specs.Guarding.{is_adding};
ghost use Rattle.region_log.specs.Kept.{KeepsLog};
ghost use Rattle.region_log.specs.Readers.{added_entry};
ghost use Rattle.region_log.specs.Stages.{CanEnd};
ghost use Rattle.region_logs.specs.Calls.{LogsPart, EndsPart};
ghost use Rattle.region_logs.specs.Table.{Names, NamesOthers, GuardsStay};

use crate::table::set_owners;
use ap_base::ThreadNo;
use line_image::{Image, ImageFailed};
use line_memory::LineMemory;
use region_log::{EndStep, LogStep, RegionLog};

/// A part of the logging of the entry that is under way.
pub(crate) fn log_part<I: Image>(
    log: &mut RegionLog,
    memory: &mut LineMemory<I>,
) -> Result<LogStep, ImageFailed>
    requires open { 0 < log.old.depth }
    requires keeps { KeepsLog log.old memory.old }
    requires named { is_adding log.old.underway ≡ true }
    ensures part { (e : LogEntry) → added_entry log.old.underway ≡ Some e
        → LogsPart e log.old log.new memory.old memory.new result }
    ensures guards { GuardsStay log.old log.new }
    ensures thread { log.new.thread ≡ log.old.thread }
    ensures cause { HasCause memory.old.faults memory.new.faults result }
{
    let entry = log.adding().unwrap();
    log.log_next(memory, entry.spot, entry.old)
}

/// A part of the end of the innermost region. Where the outermost one ends, its guards are given up: before the last
/// call, since the log is empty after it, and taken back where that fails.
pub(crate) fn end_part<I: Image>(
    log: &mut RegionLog,
    table: &mut Vec<u8>,
    thread: ThreadNo,
    memory: &mut LineMemory<I>,
) -> Result<EndStep, ImageFailed>
    requires thread { log.old.thread ≡ thread }
    requires names { Names table.old.items thread log.old }
    requires open { 0 < log.old.depth }
    requires keeps { KeepsLog log.old memory.old }
    requires same { CanEnd log.old.underway }
    ensures part { EndsPart log.old log.new memory.old memory.new result }
    ensures names { Names table.new.items thread log.new }
    ensures others { NamesOthers thread table.old.items table.new.items }
    ensures thread { log.new.thread ≡ log.old.thread }
    ensures cause { HasCause memory.old.faults memory.new.faults result }
{
    if !log.is_cleared() {
        return log.end_next(memory);
    }
    set_owners(table, log.entries(), 0);
    match log.end_next(memory) {
        Ok(step) => Ok(step),
        Err(fault) => {
            set_owners(table, log.entries(), thread.number() + 1);
            Err(fault)
        }
    }
}
