// What stops leave of a run, judged by audits of its own history.
use crate::commands::audit_words;
use crate::given::{Files, push, source_of};
use crate::running::Done;
use crate::script::Given;
use crate::texts::{put_line, put_lost};
use crate::world::{World, copied, stopped};
use ap_base::MemorySource;
use image_commands::audit;
use run_fixture::sink;
use run_history::Acts;
use std::alloc::{AllocError, Global};

/// How many words say of each of three threads whether its store that isn't fenced, or its region that is closing, is kept.
const KEPT: u64 = 8;

/// Where a history says that.
const KEEP: usize = 24;

/// Stores a word of a history.
pub(crate) fn set_word(history: &mut [u8], place: usize, value: u64) {
    for (at, byte) in value.to_le_bytes().iter().enumerate() {
        if let Some(held) = history.get_mut(at.saturating_add(place)) {
            *held = *byte;
        }
    }
}

/// The history of the last run, which says that these stores are kept, and what it printed.
fn records_of(
    alloc: Global,
    history: &[u8],
    output: &[u8],
    keep: u64,
) -> Result<MemorySource, AllocError> {
    let mut history = history.to_vec(alloc)?;
    set_word(history.as_mut_slice(), KEEP, keep);
    let mut files = Files::none(alloc);
    files.add(alloc, history.as_slice())?;
    files.add(alloc, output)?;
    source_of(alloc, &mut files)
}

/// The classes of a listing.
fn classes_of(alloc: Global, world: &World, listing: &str) -> Result<MemorySource, AllocError> {
    let mut files = Files::none(alloc);
    push(alloc, &mut files, &world.texts, &[], Given::Listed(listing))?;
    source_of(alloc, &mut files)
}

/// What was run, and on what: the image on which the run began, that which it left, and its classes.
#[derive(Clone, Copy)]
pub(crate) struct Case<'a> {
    pub(crate) before: &'a str,
    pub(crate) image: &'a str,
    pub(crate) listing: &'a str,
}

/// Whether an audit says yes of what a stop by this pick leaves, where these stores are kept.
fn is_kept(
    alloc: Global,
    world: &World,
    case: &Case<'_>,
    output: &[u8],
    (pick, keep): (u64, u64),
) -> Result<bool, AllocError> {
    let records = records_of(alloc, world.history.as_slice(), output, keep)?;
    let classes = classes_of(alloc, world, case.listing)?;
    let Some(before) = copied(alloc, &world.images, case.before)? else {
        return Ok(false);
    };
    let Some(after) = stopped(alloc, &world.images, case.image, pick)? else {
        return Ok(false);
    };
    let words = audit_words(alloc, "Main")?;
    let sink = sink(alloc, 24, u64::MAX)?;
    let audited = audit(alloc, &words, classes, records, before, after, sink);
    Ok(audited.sink.as_slice() == b"yes\n".as_slice())
}

/// Whether what a stop by this pick leaves is what the acts allow, with or without the one store of each thread that isn't fenced.
fn is_allowed(
    alloc: Global,
    world: &World,
    case: &Case<'_>,
    output: &[u8],
    pick: u64,
) -> Result<bool, AllocError> {
    for keep in 0..KEPT {
        if is_kept(alloc, world, case, output, (pick, keep))? {
            return Ok(true);
        }
    }
    Ok(false)
}

/// The first of these picks by which a stop leaves what no audit allows.
fn first_other(
    alloc: Global,
    world: &World,
    case: &Case<'_>,
    output: &[u8],
    (from, to): (u64, u64),
) -> Result<Option<u64>, AllocError> {
    for pick in from..to.saturating_add(1) {
        if !is_allowed(alloc, world, case, output, pick)? {
            return Ok(Some(pick));
        }
    }
    Ok(None)
}

/// Whether an act was made behind a call of the image.
fn went_on(acts: &Acts, call: u64) -> bool {
    match acts.get(acts.len().saturating_sub(1)) {
        Some(act) => act.at >= call,
        None => false,
    }
}

/// Puts whether the last run made no act behind a call of its image, and each of these picks leaves what its acts allow.
pub(crate) fn put_judged(
    alloc: Global,
    out: &mut String,
    world: &World,
    case: &Case<'_>,
    call: u64,
    picks: (u64, u64),
) -> Result<(), AllocError> {
    let Some(Done { acts, sink, .. }) = &world.last else {
        return put_lost(out, "no run");
    };
    if went_on(acts, call) {
        return put_line(out, "an act behind the call");
    }
    match first_other(alloc, world, case, sink.as_slice(), picks)? {
        None => put_line(out, "allowed"),
        Some(pick) => put_line(
            out,
            format!(in alloc; "pick {pick} isn't allowed")?.as_str(),
        ),
    }
}
