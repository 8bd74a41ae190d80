//! From an opened image and a class set to the first turn of a run over it: the first heap, the main
//! method's frames, the decoded code, and all beside it.
#![tactic(auto)]

mod beside;
mod heaps;
mod launches;

pub use class_code::{DecodeRefusal, accepted_sets_have_room};
pub use heaps::{OpenedHeap, open_heap};
pub use launches::{Launched, launch};
pub use program_launch::{Main, NoLaunch, NoMain, find_main, find_room};
pub use set_opening::{
    FoundImage, OpenedImage, Unopened, complete, find_for, opened_images_open_again,
};
pub use workers::{
    Halt, Left, MeetingGate, Run, RunEnd, Stepped, each_stop_is_allowed, is_live, run_all,
    run_threads, step,
};
