//! Runs of one thread.

ghost use Rattle.std.specs.Prelude.{◌≡◌};
ghost use Rattle.frame_rows.specs.Last.{is_last};
ghost use Rattle.frame_steps.specs.Sized.{AreOf};
ghost use Rattle.program_host.specs.Hosts.{setting_in};

use crate::asked::{Asked, name_of};
use crate::code::{Kin, Shape, host};
use crate::heap::Heap;
use ap_base::Ref;
use frames::Op;
use natives::{NativeState, Request};
use private_steps::Frames;
use program_host::ProgramHost;
use std::alloc::Global;
use std::test::Fail;

// Whether a thread goes no further: its run ended by a fault, or it has ended.
fn is_last(request: &Request) -> bool
    ensures { result ≡ is_last request.now }
{
    match request {
        Request::Broken(_) => true,
        Request::Leave { uncaught: _ } => true,
        _ => false,
    }
}

// What a thread asks, turn by turn, up to its end or a fault.
fn play(
    alloc: Global,
    host: &ProgramHost,
    frames: &mut Frames<Ref, NativeState>,
) -> Result<Vec<Asked>, Fail>
    requires { AreOf (setting_in host.now).program frames.old.frames }
{
    let mut heap = Heap::new(alloc);
    let mut asks = Vec::new(alloc);
    for _turn in 0..40 {
        let request = frames.run_private(host);
        asks.push(name_of(&request))?;
        if is_last(&request) {
            break;
        }
        let reply = heap.reply(&request)?;
        frames.answer(host, &reply);
    }
    Ok(asks)
}

fn main_of(alloc: Global, host: &ProgramHost) -> Result<Vec<Asked>, Fail> {
    let mut frames = Frames::new(alloc)?;
    frames.begin_main(0, 0, Ref::Volatile(30));
    play(alloc, host, &mut frames)
}

fn thread_of(alloc: Global, host: &ProgramHost) -> Result<Vec<Asked>, Fail> {
    let mut frames = Frames::new(alloc)?;
    frames.begin_thread(Ref::Volatile(0));
    play(alloc, host, &mut frames)
}

/// What `main` asks, the first method of the program.
pub fn main_asks(
    alloc: Global,
    ops: &[Op],
    shapes: &[Shape],
    kins: &[Kin],
) -> Result<Vec<Asked>, Fail> {
    let host = host(alloc, ops, shapes, kins)?;
    main_of(alloc, &host)
}

/// What a thread asks whose object is of the first class.
pub fn thread_asks(
    alloc: Global,
    ops: &[Op],
    shapes: &[Shape],
    kins: &[Kin],
) -> Result<Vec<Asked>, Fail> {
    let host = host(alloc, ops, shapes, kins)?;
    thread_of(alloc, &host)
}
