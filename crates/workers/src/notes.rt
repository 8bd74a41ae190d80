// What a run that host threads share remembers of their threads' frames.
ghost use Rattle.std.specs.Prelude.{◌≡◌, ◌<◌, length, slice_set};
ghost use Rattle.workers.specs.Shared.{values_of};

use ap_base::{Ref, ThreadNo};
use durable_run::Frames;
use natives::NativeState;
use std::snapshot::Snapshot;

/// The frames that a thread left, for proofs alone.
pub(crate) type Note = Snapshot<Frames<Ref, NativeState>>;

/// What tells frames that were left. The types of a run that host threads share take any such: of a type that names a snapshot it isn't
/// known by its parts that it may cross threads.
pub(crate) trait Noted {
    ghost use Rattle.run_forms.specs.Views.{ThreadFrames};

    ghost frames: { Self → ThreadFrames };
}

impl Noted for Snapshot<Frames<Ref, NativeState>> {
    ghost frames = { λ s. s.value };
}

/// Notes the frames that a thread has now.
pub(crate) fn note(notes: &mut Vec<Note>, t: ThreadNo, frames: &Frames<Ref, NativeState>)
    requires { t < length (values_of notes.old.items) }
    ensures { values_of notes.new.items ≡ slice_set (values_of notes.old.items) t frames.now }
{
    notes[t.number() as usize] = Snapshot::of(frames);
}
