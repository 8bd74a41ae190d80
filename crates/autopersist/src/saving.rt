// A run whose acts are saved.
ghost use Rattle.std.specs.Prelude.{◌≡◌, ◌<◌, ◌≤◌, ℕ, length, take, OnOk, IsErrOf};
ghost use Rattle.ap_base.specs.Causes.{next_count};
ghost use Rattle.ap_base.specs.Sinks.{with_bytes};
ghost use Rattle.history_file.specs.Spelling.{history_bytes};
ghost use Rattle.command_words.specs.Commands.{command_of, texts};
ghost use Rattle.autopersist.specs.Complete.{DoesItsWork};
ghost use Rattle.autopersist.specs.Meets.{Meets};
ghost use Rattle.autopersist.specs.Outside.{outside};

use crate::top_call::autopersist;
use ap_base::{ClassSource, Gate, Sink};
use class_runs::Ended;
use history_file::write_history;
use line_image::Image;
use put_bytes::put_all;
use run_history::{Acts, Watcher};
use std::alloc::Global;
use std::sync::Wait;
use std::thread::Threads;

/// Why the acts of a run weren't saved.
#[derive(Clone, Copy, Debug, PartialEq, Eq)]
pub enum SaveFault {
    /// The sink of the history failed: it took a front of it.
    SinkFault,
    /// There was no memory: nothing of the history was put.
    OutOfMemory,
}

/// What a run hands back whose acts were to be saved.
#[derive(Drop)]
pub struct Saved<C, I, S, W, H> {
    pub ended: Ended<C, I, S, W>,
    pub saved: Result<(), SaveFault>,
    pub history: H,
}

// Puts the acts as a history file of which no unfenced store and no closing region is kept.
fn save<H: Sink>(alloc: Global, acts: &Acts, history: &mut H) -> Result<(), SaveFault>
    ensures whole { OnOk result (H.taken history.new ≡ with_bytes (H.taken history.old) (history_bytes acts.now.acts 0)) }
    ensures front { IsErrOf result SaveFault.SinkFault → (k : ℕ) × (k < length (history_bytes acts.now.acts 0))
        × (H.taken history.new ≡ with_bytes (H.taken history.old) (take k (history_bytes acts.now.acts 0))) }
    ensures nothing { IsErrOf result SaveFault.OutOfMemory → history.new ≡ history.old }
    ensures cause { IsErrOf result SaveFault.SinkFault → H.faults history.new ≡ next_count (H.faults history.old) }
    ensures unfailed { OnOk result (H.faults history.new ≡ H.faults history.old) }
{
    let Ok(bytes) = write_history(alloc, acts, 0) else {
        return Err(SaveFault::OutOfMemory);
    };
    match put_all(history, bytes.as_slice()) {
        Ok(()) => Ok(()),
        Err(_) => Err(SaveFault::SinkFault),
    }
}

/// Does what the words ask for, and puts the acts of the run, behind its end, into the sink `history` as a history file: `keep` is 0
/// there. Where there are no acts, the history has none.
pub fn run_and_save<R, C, I, S, G, W, H>(
    rt: &R,
    alloc: Global,
    words: &Vec<String>,
    source: C,
    image: I,
    sink: S,
    gate: &G,
    watcher: W,
    mut history: H,
) -> Saved<C, I, S, W, H>
where
    R: Threads + Wait + Clone + Send + Sync + Drop,
    C: ClassSource,
    I: Image + Send,
    S: Sink + Send,
    G: Gate + Sync,
    W: Watcher + Send,
    H: Sink,
    // The run is one of the top call.
    ensures meets { Meets (texts words.now.items)
        (outside (C.left source) (C.faults source) (I.told image) (I.faults image) (S.taken sink) (S.takes sink) (S.faults sink) (W.seen watcher))
        (outside (C.left result.ended.source) (C.faults result.ended.source) (I.told result.ended.image) (I.faults result.ended.image)
        (S.taken result.ended.sink) (S.takes result.ended.sink) (S.faults result.ended.sink) (W.seen result.ended.watcher))
        (result.ended.source ≡ source) (result.ended.image ≡ image) result.ended.status result.ended.opening result.ended.acts.acts }
    // It does its work, where nothing is in the way.
    ensures complete { DoesItsWork (command_of (texts words.now.items))
        (outside (C.left source) (C.faults source) (I.told image) (I.faults image) (S.taken sink) (S.takes sink) (S.faults sink) (W.seen watcher))
        (outside (C.left result.ended.source) (C.faults result.ended.source) (I.told result.ended.image) (I.faults result.ended.image)
        (S.taken result.ended.sink) (S.takes result.ended.sink) (S.faults result.ended.sink) (W.seen result.ended.watcher))
        result.ended.status result.ended.opening result.ended.acts.acts }
    // Its acts are saved.
    ensures whole { OnOk result.saved (H.taken result.history ≡ with_bytes (H.taken history) (history_bytes result.ended.acts.acts 0)) }
    ensures front { IsErrOf result.saved SaveFault.SinkFault → (k : ℕ) × (k < length (history_bytes result.ended.acts.acts 0))
        × (H.taken result.history ≡ with_bytes (H.taken history) (take k (history_bytes result.ended.acts.acts 0))) }
    ensures nothing { IsErrOf result.saved SaveFault.OutOfMemory → result.history ≡ history }
    ensures cause { IsErrOf result.saved SaveFault.SinkFault → H.faults result.history ≡ next_count (H.faults history) }
    ensures unfailed { OnOk result.saved (H.faults result.history ≡ H.faults history) }
{
    let ended = autopersist(rt, alloc, words, source, image, sink, gate, watcher);
    let saved = save(alloc, &ended.acts, &mut history);
    Saved {
        ended,
        saved,
        history,
    }
}
