// The two images of a run are opened for its class set, one after the other, and its records are judged between their graphs.
ghost use Rattle.std.specs.Prelude.{◌≡◌, ◌≢◌, ◌⊎◌, IfOk, Ok};
ghost use Rattle.ap_base.specs.Causes.{next_count};
ghost use Rattle.image_opening.specs.Unopened.{NoneFailed, OneFailed};
ghost use Rattle.line_image.specs.Told.{Told};
ghost use Rattle.class_set.specs.Facts.{facts_of};
ghost use Rattle.class_set.specs.Linked.{Linked};
ghost use Rattle.plain_model.specs.First.{IsOpening};
ghost use Rattle.plain_model.specs.Runs.{IsAllowed};
ghost use Rattle.set_opening.specs.Opened.{IsFoundFor};
ghost use Rattle.set_opening.specs.Unopened.{IsUnbegun};
ghost use Rattle.source_classes.specs.Names.{slashed};
ghost use Rattle.statuses.specs.Names.{main_text, shortened};
ghost use Rattle.audit_runs.specs.Audits.{IsMainOf, IsRight};
ghost use Rattle.audit_verdicts.specs.declared.verdict.Verdict.TheVariants.{Yes};
ghost use Rattle.audit_call.specs.Audits as audits;
ghost use Rattle.audit_call.specs.Judged as judged;
ghost use Rattle.audit_call.specs.Late.{IsLate};

use crate::records::{Records, put_verdict};
use ap_base::Sink;
use audit_runs::{
    DecodeRefusal, Main, NoMain, Verdict, accepted_sets_have_room, audit_run, find_main,
};
use history_file::{HistoryFault, read_history};
use line_image::Image;
use run_history::Acts;
use run_types::LinkKind;
use set_opening::{FoundImage, Unopened, a_run_can_begin_over_recovered_images, find_for};
use shared_graph::SharedGraph;
use source_classes::{AcceptedSet, internal_name};
use statuses::{NameRoom, Status, main_status};
use std::alloc::{AllocError, Global};

fn kind_of(none: NoMain) -> LinkKind
    ensures { result ≡ judged.kind_of none }
{
    match none {
        NoMain::Class => LinkKind::MissingClass,
        NoMain::Method => LinkKind::MissingMethod,
    }
}

/// The verdict of a history and an output between two graphs. A set of accepted files isn't too large to be decoded.
fn verdict_of(
    alloc: Global,
    set: &AcceptedSet,
    main: &Main,
    opening: SharedGraph,
    after: SharedGraph,
    acts: &Acts,
    keep: u64,
    output: &[u8],
) -> Result<Verdict, AllocError>
    requires opening { IsOpening (facts_of set.now.linked) opening }
    requires main { IsMainOf set.now.linked main.now.class main.now }
    ensures right { IfOk result (IsRight set.now.linked main.now opening acts.now.acts keep output.now after) }
    ensures allowed { result ≡ Ok Yes → IsAllowed (facts_of set.now.linked) opening acts.now.acts after }
{
    let opening = opening.into_graph(alloc)?;
    let after = after.into_graph(alloc)?;
    accepted_sets_have_room();
    let _count = set.linked.file_count();
    match audit_run(
        alloc,
        &set.linked,
        main.class,
        &opening,
        acts,
        keep,
        output,
        &after,
    ) {
        Ok(verdict) => Ok(verdict),
        Err(DecodeRefusal::TooLarge) => unreachable!(),
        Err(DecodeRefusal::OutOfMemory) => Err(AllocError),
    }
}

/// Judges a history and an output between two graphs, and puts the verdict.
fn judge_history<S: Sink>(
    alloc: Global,
    set: &AcceptedSet,
    main: &Main,
    opening: SharedGraph,
    after: SharedGraph,
    records: &Records,
    sink: &mut S,
) -> Status
    requires opening { IsOpening (facts_of set.now.linked) opening }
    requires main { IsMainOf set.now.linked main.now.class main.now }
    ensures ends { judged.IsUnjudged records.now.history result (S.taken sink.old) (S.taken sink.new)
        ⊎ judged.IsJudged set.now.linked main.now opening after records.now.history records.now.output result
        (S.taken sink.old) (S.taken sink.new) }
    ensures late { IsLate result }
    ensures no_image { result ≢ Status.ImageFault }
    ensures no_source { result ≢ Status.SourceFault }
    ensures sink_fault { result ≡ Status.SinkFault → S.faults sink.new ≡ next_count (S.faults sink.old) }
    ensures sink_spared { result ≢ Status.SinkFault → S.faults sink.new ≡ S.faults sink.old }
{
    let (acts, keep) = match read_history(alloc, records.history.as_slice()) {
        Ok(told) => told,
        Err(HistoryFault::Bad { word }) => return Status::BadHistory { word },
        Err(HistoryFault::OutOfMemory) => return Status::OutOfMemory,
    };
    let output = records.output.as_slice();
    match verdict_of(alloc, set, main, opening, after, &acts, keep, output) {
        Ok(verdict) => put_verdict(alloc, verdict, sink),
        Err(_) => Status::OutOfMemory,
    }
}

/// The status where the main class is missing.
fn missing_main(alloc: Global, none: NoMain, name: &[u8]) -> Status
    ensures is { (result ≡ Status.LinkFault (judged.kind_of none) (shortened (main_text (judged.kind_of none) name.now)))
        ⊎ (result ≡ Status.OutOfMemory) }
    ensures late { IsLate result }
    ensures no_image { result ≢ Status.ImageFault }
    ensures no_source { result ≢ Status.SourceFault }
    ensures no_sink { result ≢ Status.SinkFault }
{
    match NameRoom::reserve(alloc) {
        Ok(room) => main_status(kind_of(none), name, room),
        Err(_) => Status::OutOfMemory,
    }
}

/// Looks for the `main` of the class of this name, and judges the records between two graphs. A dot in the name counts as a slash.
fn judge_graphs<S: Sink>(
    alloc: Global,
    set: &AcceptedSet,
    class: &[u8],
    opening: SharedGraph,
    after: SharedGraph,
    records: &Records,
    sink: &mut S,
) -> Status
    requires opening { IsOpening (facts_of set.now.linked) opening }
    ensures ends { judged.GraphsEnd set.now.linked (slashed class.now) opening after records.now result (S.taken sink.old) (S.taken sink.new) }
    ensures late { IsLate result }
    ensures no_image { result ≢ Status.ImageFault }
    ensures no_source { result ≢ Status.SourceFault }
    ensures sink_fault { result ≡ Status.SinkFault → S.faults sink.new ≡ next_count (S.faults sink.old) }
    ensures sink_spared { result ≢ Status.SinkFault → S.faults sink.new ≡ S.faults sink.old }
{
    let Ok(name) = internal_name(alloc, class) else {
        return Status::OutOfMemory;
    };
    match find_main(&set.linked, name.as_slice()) {
        Ok(main) => judge_history(alloc, set, &main, opening, after, records, sink),
        Err(none) => missing_main(alloc, none, name.as_slice()),
    }
}

fn of_unopened(why: Unopened) -> Status
    ensures is { result ≡ audits.status_of_unopened why }
    ensures late { IsLate result }
    ensures image_failed { result ≡ Status.ImageFault → why ≡ Unopened.ImageFailed }
    ensures no_source { result ≢ Status.SourceFault }
    ensures no_sink { result ≢ Status.SinkFault }
{
    match why {
        Unopened::BadImage { line, reason } => Status::BadImage { line, reason },
        Unopened::ShapeChanged { name } => Status::ShapeChanged { shape: name },
        Unopened::Full(full) => Status::Full(full),
        Unopened::ImageFailed => Status::ImageFault,
        Unopened::OutOfMemory => Status::OutOfMemory,
    }
}

/// Gives an image back that was found for a set, with its graph. Directory, lines and memory are let go.
fn give_back<I: Image>(found: FoundImage<I>) -> (SharedGraph, I)
    ensures given { (start : Told) (old set : Linked) → IsFoundFor start old set
        found.memory found.directory found.lines found.graph found.free
        → (unbegun : IsUnbegun start (I.told result.1) old set) × (unbegun.graph ≡ result.0) }
    ensures opening { (start : Told) (old set : Linked) → IsFoundFor start old set
        found.memory found.directory found.lines found.graph found.free
        → IsOpening (facts_of set) result.0 }
    ensures faults { I.faults result.1 ≡ found.memory.faults }
{
    a_run_can_begin_over_recovered_images();
    let FoundImage {
        memory,
        directory: _,
        graph,
        lines: _,
        free: _,
    } = found;
    (graph, memory.into_image())
}

/// What came of an image that the run left, and the image.
#[derive(Drop)]
struct AfterJudged<J> {
    status: Status,
    image: J,
}

/// What came of two images, and the images.
#[derive(Drop)]
pub(crate) struct Judged<I, J> {
    pub(crate) status: Status,
    pub(crate) before: I,
    pub(crate) after: J,
}

/// Opens the image that the run left, and judges the run that began with this graph.
fn judge_after<J: Image, S: Sink>(
    alloc: Global,
    set: AcceptedSet,
    class: &[u8],
    opening: SharedGraph,
    records: &Records,
    after: J,
    sink: &mut S,
) -> AfterJudged<J>
    requires opening { IsOpening (facts_of set.linked) opening }
    ensures ends { audits.AfterEnds set.linked (slashed class.now) opening records.now (J.told after) (J.told result.image)
        result.status (S.taken sink.old) (S.taken sink.new) }
    ensures kept { audits.IsKept (J.told after) (J.told result.image) }
    ensures late { IsLate result.status }
    ensures image_fault { result.status ≡ Status.ImageFault → J.faults result.image ≡ next_count (J.faults after) }
    ensures image_spared { result.status ≢ Status.ImageFault → J.faults result.image ≡ J.faults after }
    ensures no_source { result.status ≢ Status.SourceFault }
    ensures sink_fault { result.status ≡ Status.SinkFault → S.faults sink.new ≡ next_count (S.faults sink.old) }
    ensures sink_spared { result.status ≢ Status.SinkFault → S.faults sink.new ≡ S.faults sink.old }
{
    let AcceptedSet { mut linked } = set;
    match find_for(alloc, &mut linked, after) {
        Ok(found) => {
            let (graph, image) = give_back(found);
            let set = AcceptedSet { linked };
            let status = judge_graphs(alloc, &set, class, opening, graph, records, sink);
            AfterJudged { status, image }
        }
        Err((why, image)) => {
            let status = of_unopened(why);
            AfterJudged { status, image }
        }
    }
}

/// Opens the image from which the run began, and then the one that it left, and judges the run.
pub(crate) fn judge_images<I: Image, J: Image, S: Sink>(
    alloc: Global,
    set: AcceptedSet,
    class: &[u8],
    records: &Records,
    before: I,
    after: J,
    sink: &mut S,
) -> Judged<I, J>
    ensures ends { audits.ImagesEnd set.linked (slashed class.now) records.now
        (audits.images (I.told before) (J.told after)) (audits.images (I.told result.before) (J.told result.after))
        result.status (S.taken sink.old) (S.taken sink.new) }
    ensures before_kept { audits.IsKept (I.told before) (I.told result.before) }
    ensures after_kept { audits.IsKept (J.told after) (J.told result.after) }
    ensures late { IsLate result.status }
    ensures image_fault { result.status ≡ Status.ImageFault
        → OneFailed (I.faults before) (I.faults result.before) (J.faults after) (J.faults result.after) }
    ensures image_spared { result.status ≢ Status.ImageFault
        → NoneFailed (I.faults before) (I.faults result.before) (J.faults after) (J.faults result.after) }
    ensures no_source { result.status ≢ Status.SourceFault }
    ensures sink_fault { result.status ≡ Status.SinkFault → S.faults sink.new ≡ next_count (S.faults sink.old) }
    ensures sink_spared { result.status ≢ Status.SinkFault → S.faults sink.new ≡ S.faults sink.old }
{
    let AcceptedSet { mut linked } = set;
    match find_for(alloc, &mut linked, before) {
        Ok(found) => {
            let (opening, before) = give_back(found);
            let set = AcceptedSet { linked };
            let judged = judge_after(alloc, set, class, opening, records, after, sink);
            Judged {
                status: judged.status,
                before,
                after: judged.image,
            }
        }
        Err((why, before)) => {
            let status = of_unopened(why);
            Judged {
                status,
                before,
                after,
            }
        }
    }
}
