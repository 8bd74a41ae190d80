// What lies in the turnstile.
use crate::locked::Locked;
use crate::names::Naming;
use crate::notes::{Note, Noted};
use ap_base::{Ref, Sink};
use durable_run::Frames;
use line_image::Image;
use natives::NativeState;
use run_history::{Act, Watcher};
use turnstile::Kept;

/// A run in a place of its own, so that little is handed over. Its entries are the acts since host threads share it, each its thread's,
/// and a thread's part are its frames.
#[derive(Drop)]
pub(crate) struct Desk<J: Naming<S>, I: Image, S: Sink, W: Watcher, N: Noted + Drop = Note> {
    pub(crate) locked: Box<Locked<J, I, S, W, N>>,
}

impl<J: Naming<S> + Send, I: Image + Send, S: Sink + Send, W: Watcher + Send> Kept
    for Desk<J, I, S, W> {
    type Entry = Act;

    type Part = Frames<Ref, NativeState>;

    ghost entries = { λ d. d.locked.value.entries };

    ghost worker = { λ a. a.thread };

    ghost parts = { λ d. d.locked.value.noted };

    fn made(&self) -> u64 {
        self.locked.made()
    }
}
