// The audit of a saved run, from the files of its classes on.
ghost use Rattle.std.specs.Prelude.{◌≡◌, ◌≢◌, ◌⊎◌, List, [], Some, Ok, Err, IfOk, IfErr, OnOk, IsOk, IsErrOf};
ghost use Rattle.ap_base.specs.Causes.{Rose, next_count};
ghost use Rattle.image_opening.specs.Unopened.{NoneFailed, OneFailed};
ghost use Rattle.ap_base.specs.declared.source.NamedBytes.{NamedBytes as File};
ghost use Rattle.source_classes.specs.Files.{classes_among};
ghost use Rattle.source_classes.specs.Names.{slashed};
ghost use Rattle.source_classes.specs.Reading.{HasNoCause, IsLeft};
ghost use Rattle.audit_call.specs.Audits as audits;
ghost use Rattle.audit_call.specs.Late.{IsLate};
ghost use Rattle.audit_call.specs.Linking.{SourceLinksTo};

use crate::judging::{Judged, judge_images};
use crate::records::read_records;
use ap_base::{ClassSource, Sink};
use line_image::Image;
use source_classes::{AcceptedSet, link, read_files};
use statuses::Status;
use std::alloc::Global;

/// How an audit ended, and what it was given.
#[derive(Drop)]
pub struct Audited<C, R, I, J, S> {
    pub status: Status,
    pub source: C,
    pub records: R,
    pub before: I,
    pub after: J,
    pub sink: S,
}

/// The class set of the source's files.
fn read_set<C: ClassSource>(alloc: Global, source: &mut C) -> Result<AcceptedSet, Status>
    ensures links { IfOk result (λ set. SourceLinksTo (C.left source.old) (Ok set.linked)) }
    ensures refused { IfErr result (λ s. SourceLinksTo (C.left source.old) (Err s) ⊎ HasNoCause s) }
    ensures whole { OnOk result ((files : List File) → C.left source.old ≡ Some files
        → IsOk (classes_among files) × (C.left source.new ≡ Some [])) }
    ensures left { IfErr result (λ s. (files : List File) → C.left source.old ≡ Some files
        → IsLeft files s (C.left source.new)) }
    ensures no_image { IfErr result (λ s. s ≢ Status.ImageFault) }
    ensures no_sink { IfErr result (λ s. s ≢ Status.SinkFault) }
    ensures no_words { IfErr result (λ s. s ≢ Status.Usage) }
    ensures cause { IsErrOf result Status.SourceFault → Rose (C.faults source.old) (C.faults source.new) }
{
    let classes = read_files(alloc, source)?;
    link(alloc, classes)
}

/// Reads the records, opens the image from which the run began, and then the one that it left, and judges the run.
fn judge_set<R: ClassSource, I: Image, J: Image, S: Sink>(
    alloc: Global,
    set: AcceptedSet,
    class: &[u8],
    records: &mut R,
    before: I,
    after: J,
    sink: &mut S,
) -> Judged<I, J>
    ensures ends { audits.SetEnds set.linked (slashed class.now)
        (audits.images (I.told before) (J.told after)) (audits.images (I.told result.before) (J.told result.after))
        (audits.outside (R.left records.old) (R.faults records.old) (S.taken sink.old))
        (audits.outside (R.left records.new) (R.faults records.new) (S.taken sink.new)) result.status }
    ensures before_kept { audits.IsKept (I.told before) (I.told result.before) }
    ensures after_kept { audits.IsKept (J.told after) (J.told result.after) }
    ensures late { IsLate result.status }
    ensures image_fault { result.status ≡ Status.ImageFault
        → OneFailed (I.faults before) (I.faults result.before) (J.faults after) (J.faults result.after) }
    ensures image_spared { result.status ≢ Status.ImageFault
        → NoneFailed (I.faults before) (I.faults result.before) (J.faults after) (J.faults result.after) }
    ensures source_fault { result.status ≡ Status.SourceFault → Rose (R.faults records.old) (R.faults records.new) }
    ensures sink_fault { result.status ≡ Status.SinkFault → S.faults sink.new ≡ next_count (S.faults sink.old) }
    ensures sink_spared { result.status ≢ Status.SinkFault → S.faults sink.new ≡ S.faults sink.old }
{
    match read_records(alloc, records) {
        Ok(read) => judge_images(alloc, set, class, &read, before, after, sink),
        Err(status) => Judged {
            status,
            before,
            after,
        },
    }
}

/// Audits a saved run: reads the class files of `source` and links them; reads the history and the output from `records`, where a missing
/// one is empty; opens `before`, the image from which the run began, and then `after`, the one that it left, for the class set; looks for
/// the static `main([Ljava/lang/String;)V` of the class of this name, in which a dot counts as a slash; and prints what the audit of the
/// run says: `yes`, `no act N`, `no output` or `no image`, and a line feed. Both images are recovered, and nothing is appended to their
/// directories.
///
/// # Errors
///
/// In this order: `SourceFault` only where the count of faults of the source rose; `Full` of files, `BadClass` and `LinkRefused` exactly as
/// `read_files` and `link` answer; `SourceFault` of the records, and `Full` exactly where their source gave a front of one alone;
/// `ImageFault` exactly where one of the images failed, once, `BadImage`, `ShapeChanged` and `Full` of the directory exactly as `find_for`
/// answers, for `before` first; `LinkFault` exactly where the class or its `main` is missing; `BadHistory` exactly where the history is
/// bad; `Refuted` exactly where the verdict isn't Yes; `SinkFault` exactly where the sink failed, once, behind a front of the verdict
/// was put. `OutOfMemory` may stand in place of any answer. Nothing is put but a verdict.
pub fn audit_files<C: ClassSource, R: ClassSource, I: Image, J: Image, S: Sink>(
    alloc: Global,
    main: &[u8],
    mut source: C,
    mut records: R,
    before: I,
    after: J,
    mut sink: S,
) -> Audited<C, R, I, J, S>
    // How it ends: each answer with its cause, and what it leaves of the images, the records and the sink.
    ensures ends { audits.AuditEnds (C.left source) (slashed main.now)
        (audits.images (I.told before) (J.told after)) (audits.images (I.told result.before) (J.told result.after))
        (audits.outside (R.left records) (R.faults records) (S.taken sink))
        (audits.outside (R.left result.records) (R.faults result.records) (S.taken result.sink)) result.status }
    ensures answers { audits.AnswersFor (C.left source) (slashed main.now)
        (audits.images (I.told before) (J.told after)) (audits.images (I.told result.before) (J.told result.after))
        (audits.outside (R.left records) (R.faults records) (S.taken sink))
        (audits.outside (R.left result.records) (R.faults result.records) (S.taken result.sink)) result.status }

    // What is left of the class files, and of each image, whatever the answer.
    ensures left { (files : List File) → C.left source ≡ Some files → IsLeft files result.status (C.left result.source) }
    ensures before_kept { audits.IsKept (I.told before) (I.told result.before) }
    ensures after_kept { audits.IsKept (J.told after) (J.told result.after) }

    // It knows no words.
    ensures no_words { result.status ≢ Status.Usage }

    // A source's fault comes only where its count rose; the images and the sink fail once where the call ends by them, and else never.
    ensures source_fault { result.status ≡ Status.SourceFault
        → Rose (C.faults source) (C.faults result.source) ⊎ Rose (R.faults records) (R.faults result.records) }
    ensures image_fault { result.status ≡ Status.ImageFault
        → OneFailed (I.faults before) (I.faults result.before) (J.faults after) (J.faults result.after) }
    ensures image_spared { result.status ≢ Status.ImageFault
        → NoneFailed (I.faults before) (I.faults result.before) (J.faults after) (J.faults result.after) }
    ensures sink_fault { result.status ≡ Status.SinkFault → S.faults result.sink ≡ next_count (S.faults sink) }
    ensures sink_spared { result.status ≢ Status.SinkFault → S.faults result.sink ≡ S.faults sink }
{
    match read_set(alloc, &mut source) {
        Ok(set) => {
            let judged = judge_set(alloc, set, main, &mut records, before, after, &mut sink);
            Audited {
                status: judged.status,
                source,
                records,
                before: judged.before,
                after: judged.after,
                sink,
            }
        }
        Err(status) => Audited {
            status,
            source,
            records,
            before,
            after,
            sink,
        },
    }
}
