// What a run changes.
use ap_base::{Ref, Sink};
use line_image::Image;
use machine::SharedHeap;
use natives::NativeState;
use private_steps::Frames;
use run_history::Watcher;

/// What a run changes: the frames of its 64 threads, the heap with its history, the outside, and how many turns each
/// thread has had.
#[derive(Drop)]
pub struct Run<I: Image, S: Sink, W: Watcher> {
    pub frames: Vec<Frames<Ref, NativeState>>,
    pub heap: SharedHeap<I>,
    pub sink: S,
    pub watcher: W,
    pub turns: [u64; 64],
}
