// The call of `audit`.
ghost use Rattle.std.specs.Prelude.{◌≡◌, Some};
ghost use Rattle.audit_call.specs.Audits.{IsKept, images, outside};
ghost use Rattle.command_words.specs.Commands.{command_of, texts};
ghost use Rattle.image_commands.specs.Asked.{of_audit};
ghost use Rattle.image_commands.specs.Complete.{AuditDoesItsWork};
ghost use Rattle.image_commands.specs.Audits.{MeetsAudit, faults, things};

use crate::words::of_words;
use ap_base::{ClassSource, Sink};
use audit_call::{Audited, audit_files};
use command_words::{Audit, Command, read_words};
use line_image::Image;
use statuses::Status;
use std::alloc::Global;

// What the words of a command ask of `audit`.
fn of_audit(command: Command) -> Option<Audit>
    ensures { result ≡ of_audit (Some command) }
{
    match command {
        Command::Audit(words) => Some(words),
        _ => None,
    }
}

// What a call gives back that touched nothing.
fn untouched<C, R, I: Image, J: Image, S>(
    status: Status,
    source: C,
    records: R,
    before: I,
    after: J,
    sink: S,
) -> Audited<C, R, I, J, S>
    ensures status { result.status ≡ status }
    ensures source { result.source ≡ source }
    ensures records { result.records ≡ records }
    ensures before { result.before ≡ before }
    ensures after { result.after ≡ after }
    ensures sink { result.sink ≡ sink }
    ensures before_kept { IsKept (I.told before) (I.told result.before) }
    ensures after_kept { IsKept (J.told after) (J.told result.after) }
{
    Audited {
        status,
        source,
        records,
        before,
        after,
        sink,
    }
}

/// Audits a saved run where the words, which begin with the program's name, ask for it: whether its history, which `records` gives first,
/// is a run of the source's class files from the image `before`, whether it prints the output, which they give then, and whether it leads
/// to the image `after`. It puts `yes`, `no act N`, `no output` or `no image`, and a line feed. Both images are recovered, and nothing is
/// appended to their directories.
pub fn audit<C: ClassSource, R: ClassSource, I: Image, J: Image, S: Sink>(
    alloc: Global,
    words: &Vec<String>,
    source: C,
    records: R,
    before: I,
    after: J,
    sink: S,
) -> Audited<C, R, I, J, S>
    // The promises, a field each.
    ensures meets { MeetsAudit (texts words.now.items)
        (things (C.left source) (images (I.told before) (J.told after))
        (outside (R.left records) (R.faults records) (S.taken sink))
        (faults (C.faults source) (R.faults records) (I.faults before) (J.faults after) (S.faults sink)))
        (things (C.left result.source) (images (I.told result.before) (J.told result.after))
        (outside (R.left result.records) (R.faults result.records) (S.taken result.sink))
        (faults (C.faults result.source) (R.faults result.records) (I.faults result.before) (J.faults result.after)
        (S.faults result.sink)))
        ((result.source ≡ source) × (result.records ≡ records) × (result.before ≡ before) × (result.after ≡ after)
        × (result.sink ≡ sink)) result.status }
    // Where the files, the records and the images are as it asks and nothing outside fails, it does its work, or memory runs out before a
    // byte is put.
    ensures complete { AuditDoesItsWork (of_audit (command_of (texts words.now.items)))
        (things (C.left source) (images (I.told before) (J.told after))
        (outside (R.left records) (R.faults records) (S.taken sink))
        (faults (C.faults source) (R.faults records) (I.faults before) (J.faults after) (S.faults sink)))
        (things (C.left result.source) (images (I.told result.before) (J.told result.after))
        (outside (R.left result.records) (R.faults result.records) (S.taken result.sink))
        (faults (C.faults result.source) (R.faults result.records) (I.faults result.before) (J.faults result.after)
        (S.faults result.sink))) result.status }
{
    do_audit(alloc, words, source, records, before, after, sink)
}

// What the words ask for is done. It stands apart because `complete` follows from `meets` of the same call.
fn do_audit<C: ClassSource, R: ClassSource, I: Image, J: Image, S: Sink>(
    alloc: Global,
    words: &Vec<String>,
    source: C,
    records: R,
    before: I,
    after: J,
    sink: S,
) -> Audited<C, R, I, J, S>
    ensures meets { MeetsAudit (texts words.now.items)
        (things (C.left source) (images (I.told before) (J.told after))
        (outside (R.left records) (R.faults records) (S.taken sink))
        (faults (C.faults source) (R.faults records) (I.faults before) (J.faults after) (S.faults sink)))
        (things (C.left result.source) (images (I.told result.before) (J.told result.after))
        (outside (R.left result.records) (R.faults result.records) (S.taken result.sink))
        (faults (C.faults result.source) (R.faults result.records) (I.faults result.before) (J.faults result.after)
        (S.faults result.sink)))
        ((result.source ≡ source) × (result.records ≡ records) × (result.before ≡ before) × (result.after ≡ after)
        × (result.sink ≡ sink)) result.status }
{
    let asked = match read_words(alloc, words) {
        Ok(command) => of_audit(command),
        Err(fault) => return untouched(of_words(fault), source, records, before, after, sink),
    };
    let Some(asked) = asked else {
        return untouched(Status::Usage, source, records, before, after, sink);
    };
    audit_files(
        alloc,
        asked.main.as_slice(),
        source,
        records,
        before,
        after,
        sink,
    )
}
