// The threads of a machine.
ghost use Rattle.std.specs.Prelude.{◌≡◌, None};
ghost use Rattle.frame_steps.specs.Sized.{AreOf};
ghost use Rattle.plain_machine.specs.Turns.{TurnsFrom};

use ap_base::{Item, Ref};
use frame_thread::Host;
use natives::{Native, NativeState, Request};
use private_steps::Frames;

/// A thread: its frames, and what their next turn asked, if it was made ahead of the act that
/// follows.
#[derive(Drop)]
pub struct Lane {
    pub frames: Frames<Ref, NativeState>,
    pub asked: Option<Request>,
}

/// The request of the thread's next turn, which was made before or is made now. It isn't noted
/// here.
pub(crate) fn turned<H: Host<Native, Ref, NativeState, Item>>(lane: &mut Lane, host: &H) -> Request
    requires of { AreOf (H.setting host.now).program lane.old.frames.frames }
    ensures turns { TurnsFrom (H.setting host.now) lane.old.asked lane.old.frames result
        lane.new.frames }
    ensures none { lane.new.asked ≡ None }
    ensures of { AreOf (H.setting host.now).program lane.new.frames.frames }
{
    match lane.asked.take() {
        Some(request) => request,
        None => lane.frames.run_private(host),
    }
}
