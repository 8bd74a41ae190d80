// A run that is seen while it goes on: its watcher is a live view.
use graph_model::Value;
use live_launch::begin_live;
use live_view::{Followed, LiveReader, LiveWriter, Look};
use run_fixture::{RING, RUN, blank, listed, run_watched, sink};
use run_types::Limits;
use set_fixture::{linked, null_opening};
use std::alloc::Global;
use std::sync::Wait;
use std::test::Fail;
use std::thread::Threads;

/// Of the view.
const LIMITS: Limits = Limits {
    heap_words: 30_000,
    acts: 1_000,
};

/// Before the run nothing is seen.
const NOTHING: Look = Look {
    acts: 0,
    roots: 0,
    nodes: 0,
    stores: 0,
};

/// A view of the heap before the run, and its one reader.
fn begun<'a, R: Wait>(rt: &'a R, alloc: Global) -> Result<(LiveWriter<&'a R>, LiveReader), Fail> {
    let set = linked(alloc, RING.as_bytes())?;
    let Some(opening) = null_opening(alloc, &set)? else {
        return Err("one root".into());
    };
    let (writer, mut readers) = begin_live(rt, alloc, &set, &opening, &LIMITS, 1)?;
    match readers.pop() {
        Some(reader) => Ok((writer, reader)),
        None => Err("a reader".into()),
    }
}

/// How many acts the run makes that makes a ring, and how many of them the view has told behind it: `None` where it is frozen. A
/// reader can look as long as the writer is there.
fn seen<'a, R: Threads + Wait + Clone + Send + Sync + Drop>(
    rt: &'a R,
    alloc: Global,
    writer: LiveWriter<&'a R>,
) -> Result<(u64, Option<u64>, LiveWriter<&'a R>), Fail> {
    let source = listed(alloc, RING)?;
    let sink = sink(alloc, 24, u64::MAX)?;
    let image = blank(alloc)?;
    let ended = run_watched(rt, alloc, &RUN, source, image, sink, writer)?;
    let acts = u64::from(ended.acts.len());
    let mut watcher = ended.watcher;
    let told = watcher.tell().acts();
    let told = if watcher.frozen() { None } else { Some(told) };
    Ok((acts, told, watcher))
}

/// The reader of the view looks before the run and after it.
#[test]
fn a_run_is_seen(rt: HostRuntime) -> Result<(), Fail> {
    let (writer, mut reader) = begun(&rt, rt.alloc())?;
    let before = reader.look(&rt, rt.alloc())?;
    let (acts, told, _writer) = seen(&rt, rt.alloc(), writer)?;
    let after = reader.look(&rt, rt.alloc())?;
    let wanted = Look {
        acts,
        roots: 1,
        nodes: 3,
        stores: 1,
    };
    assert!(rt; before == NOTHING && told == Some(acts) && after == wanted);
    let third = reader.path(&rt, 0, &[1, 1, 0]);
    let none = reader.path(&rt, 0, &[0, 0]);
    assert!(rt; third == Followed::Found(Value::Int(3)));
    assert!(rt; none == Followed::NoPath { step: 2 });
    Ok(())
}
