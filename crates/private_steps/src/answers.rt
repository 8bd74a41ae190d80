//! What comes of the reply to a turn's request.

ghost use Rattle.std.specs.Prelude.{◌≡◌, ℕ, false, [], drop, IfSome, Some};
ghost use Rattle.frames.specs.Settings.{Runs, BeginsMain, BeginsThread, Enters, Unwinds, Initialises, Ends};
ghost use Rattle.frames.specs.Turns.{native_answered, frame_answered, begins_thread, answered};
ghost use Rattle.frames.specs.Calls.{resumes, throws};
ghost use Rattle.frame_thread.specs.Stacked.{list_of, frames_of, stepped, IsBelowEnd};
ghost use Rattle.frame_steps.specs.Sized.{AreOf};
ghost use Rattle.private_steps.specs.Waits.{WaitsFor};

use crate::arguments::Arguments;
use crate::replies::instruction_answered;
use crate::turns::{at_of, class_of};
use frame_steps::gives::{Gave, advances, gives, unlinked};
use frame_steps::initialises::{begins_alone, initialises, resumes, runs_initialiser};
use frame_steps::throws::throws;
use frame_thread::tables::dispatched;
use frame_thread::{Activity, Form, Host, Said, Thread};
use frames::Target;
use natives::Reply;
use run_types::At;

// What comes of the reply to the request of a native method.
fn native_answered<M: Copy + Drop, R: Copy + Drop, N: Copy + Drop, V: Drop, H: Host<M, R, N, V>>(
    thread: &mut Thread<R, N>,
    host: &H,
    from: At,
    state: N,
    reply: &Reply<R, V>,
) -> Said<R>
    requires form { thread.old.form ≡ Some (Form.Native from state) }
    requires of { AreOf (H.setting host.now).program (list_of thread.old) }
    ensures step { stepped result thread.new ≡ native_answered (H.setting host.now) from state thread.old.below reply.now }
    ensures of { AreOf (H.setting host.now).program (list_of thread.new) }
{
    if let Reply::Thrown { object, class } = reply {
        thread.pop();
        return throws(thread, host, *object, *class);
    }
    let next = host.next(state, reply);
    match advances(thread, host, from, state, next) {
        Gave::Value(value) => gives(thread, host, value),
        Gave::Said(said) => said,
    }
}

// What comes of the reply to the request of the last frame.
fn frame_answered<M: Copy + Drop, R: Copy + Drop, N: Copy + Drop, V: Drop, H: Host<M, R, N, V>>(
    thread: &mut Thread<R, N>,
    arguments: &mut Arguments<R>,
    host: &H,
    reply: &Reply<R, V>,
) -> Said<R>
    requires waits { IfSome thread.old.form IsBelowEnd }
    requires doing { thread.old.doing ≡ Runs }
    requires of { AreOf (H.setting host.now).program (list_of thread.old) }
    ensures step { stepped result thread.new ≡ frame_answered (H.setting host.now) (list_of thread.old) reply.now }
    ensures of { AreOf (H.setting host.now).program (list_of thread.new) }
{
    match thread.form() {
        Some(Form::Running(standing)) => instruction_answered(
            thread, arguments, host, standing, reply,
        ),
        Some(Form::Native { from, state }) => native_answered(thread, host, from, state, reply),
        _ => Said::Nothing,
    }
}

// The last frame goes, if there is one.
fn drop_last<R: Copy + Drop, N: Copy + Drop>(thread: &mut Thread<R, N>)
    requires { IfSome thread.old.form IsBelowEnd }
    ensures frames { list_of thread.new ≡ drop 1 (list_of thread.old) }
    ensures waits { IfSome thread.new.form IsBelowEnd }
{
    if thread.form().is_some() {
        thread.pop();
    }
}

// A throwable leaves the last frame and those below it.
fn leaves<M: Copy + Drop, R: Copy + Drop, N: Copy + Drop, V: Drop, H: Host<M, R, N, V>>(
    thread: &mut Thread<R, N>,
    host: &H,
    thrown: R,
    class: u32,
) -> Said<R>
    requires waits { IfSome thread.old.form IsBelowEnd }
    requires of { AreOf (H.setting host.now).program (list_of thread.old) }
    ensures step { stepped result thread.new ≡ throws (H.setting host.now) thrown class (drop 1 (list_of thread.old)) }
    ensures of { AreOf (H.setting host.now).program (list_of thread.new) }
{
    drop_last(thread);
    throws(thread, host, thrown, class)
}

// The initialiser that has run goes.
fn initialised<M: Copy + Drop, R: Copy + Drop, N: Copy + Drop, V: Drop, H: Host<M, R, N, V>>(
    thread: &mut Thread<R, N>,
    host: &H,
) -> Said<R>
    requires waits { IfSome thread.old.form IsBelowEnd }
    requires of { AreOf (H.setting host.now).program (list_of thread.old) }
    ensures step { stepped result thread.new ≡ resumes (H.setting host.now) (drop 1 (list_of thread.old)) }
    ensures of { AreOf (H.setting host.now).program (list_of thread.new) }
{
    drop_last(thread);
    resumes(thread, host)
}

// The class whose superclass was asked for is initialised.
fn superclass_answered<
    M: Copy + Drop,
    R: Copy + Drop,
    N: Copy + Drop,
    V: Drop,
    H: Host<M, R, N, V>,
>(thread: &mut Thread<R, N>, host: &H, reply: &Reply<R, V>) -> Said<R>
    requires waits { IfSome thread.old.form IsBelowEnd }
    requires of { AreOf (H.setting host.now).program (list_of thread.old) }
    ensures step { (super : ℕ) → stepped result thread.new
        ≡ answered (H.setting host.now) (Initialises super) (list_of thread.old) reply.now }
    ensures of { AreOf (H.setting host.now).program (list_of thread.new) }
{
    if let Reply::Init(class) = reply {
        let from = at_of(thread, host);
        return initialises(thread, host, *class, from);
    }
    let class = class_of(thread, host);
    runs_initialiser(thread, host, class)
}

// The main class is initialised, and then `main` is called.
fn main_answered<M: Copy + Drop, R: Copy + Drop, N: Copy + Drop, V: Drop, H: Host<M, R, N, V>>(
    thread: &mut Thread<R, N>,
    host: &H,
    reply: &Reply<R, V>,
) -> Said<R>
    requires waits { IfSome thread.old.form IsBelowEnd }
    requires of { AreOf (H.setting host.now).program (list_of thread.old) }
    ensures step { (class : ℕ) → stepped result thread.new
        ≡ answered (H.setting host.now) (BeginsMain class) (list_of thread.old) reply.now }
    ensures of { AreOf (H.setting host.now).program (list_of thread.new) }
{
    if let Reply::Init(class) = reply {
        return initialises(thread, host, *class, host.main());
    }
    resumes(thread, host)
}

// The thread of an object of a class begins.
fn begins_thread<M: Copy + Drop, R: Copy + Drop, N: Copy + Drop, V: Drop, H: Host<M, R, N, V>>(
    thread: &mut Thread<R, N>,
    host: &H,
    object: R,
    class: u32,
) -> Said<R>
    requires of { AreOf (H.setting host.now).program (list_of thread.old) }
    ensures step { stepped result thread.new ≡ begins_thread (H.setting host.now) object class (list_of thread.old) }
    ensures of { AreOf (H.setting host.now).program (list_of thread.new) }
{
    match dispatched(host.program(), class, host.program().run) {
        Target::Method(number) => begins_alone(thread, host, number, object),
        Target::Fails(kind) => unlinked(thread, kind, class),
    }
}

// The thread ends by a throwable of a class.
fn ends<R: Copy + Drop, N: Copy + Drop>(thread: &mut Thread<R, N>, class: u32) -> Said<R>
    ensures said { result ≡ Said.Nothing }
    ensures frames { frames_of thread.new
        ≡ record { doing = Ends (Some class); frames = []; paused = false } }
{
    thread.clear();
    thread.set_doing(Activity::Ends(Some(class)));
    Said::Nothing
}

// What comes of a reply to what a thread asked before its first instruction.
fn thread_answered<M: Copy + Drop, R: Copy + Drop, N: Copy + Drop, V: Drop, H: Host<M, R, N, V>>(
    thread: &mut Thread<R, N>,
    host: &H,
    object: R,
    reply: &Reply<R, V>,
) -> Said<R>
    requires doing { thread.old.doing ≡ BeginsThread object }
    requires of { AreOf (H.setting host.now).program (list_of thread.old) }
    ensures step { stepped result thread.new
        ≡ answered (H.setting host.now) (BeginsThread object) (list_of thread.old) reply.now }
    ensures of { AreOf (H.setting host.now).program (list_of thread.new) }
{
    match reply {
        Reply::Shape(class) => begins_thread(thread, host, object, *class),
        Reply::Thrown { object: _, class } => ends(thread, *class),
        _ => Said::Nothing,
    }
}

// The method that asked for its monitor has it, or a throwable leaves it.
fn entry_answered<M: Copy + Drop, R: Copy + Drop, N: Copy + Drop, V: Drop, H: Host<M, R, N, V>>(
    thread: &mut Thread<R, N>,
    host: &H,
    reply: &Reply<R, V>,
) -> Said<R>
    requires waits { IfSome thread.old.form IsBelowEnd }
    requires of { AreOf (H.setting host.now).program (list_of thread.old) }
    ensures step { stepped result thread.new ≡ answered (H.setting host.now) Enters (list_of thread.old) reply.now }
    ensures of { AreOf (H.setting host.now).program (list_of thread.new) }
{
    if let Reply::Thrown { object, class } = reply {
        return leaves(thread, host, *object, *class);
    }
    thread.set_doing(Activity::Runs);
    Said::Nothing
}

// The method that a throwable leaves has given its monitor back, or another throwable leaves it.
fn exit_answered<M: Copy + Drop, R: Copy + Drop, N: Copy + Drop, V: Drop, H: Host<M, R, N, V>>(
    thread: &mut Thread<R, N>,
    host: &H,
    thrown: R,
    class: u32,
    reply: &Reply<R, V>,
) -> Said<R>
    requires waits { IfSome thread.old.form IsBelowEnd }
    requires of { AreOf (H.setting host.now).program (list_of thread.old) }
    ensures step { stepped result thread.new
        ≡ answered (H.setting host.now) (Unwinds thrown class) (list_of thread.old) reply.now }
    ensures of { AreOf (H.setting host.now).program (list_of thread.new) }
{
    match reply {
        Reply::Thrown { object, class } => leaves(thread, host, *object, *class),
        _ => leaves(thread, host, thrown, class),
    }
}

/// What comes of the reply to a turn's request.
pub fn answered<M: Copy + Drop, R: Copy + Drop, N: Copy + Drop, V: Drop, H: Host<M, R, N, V>>(
    thread: &mut Thread<R, N>,
    arguments: &mut Arguments<R>,
    host: &H,
    reply: &Reply<R, V>,
) -> Said<R>
    requires waits { WaitsFor thread.old.doing (list_of thread.old) }
    requires of { AreOf (H.setting host.now).program (list_of thread.old) }
    ensures step { stepped result thread.new
        ≡ answered (H.setting host.now) thread.old.doing (list_of thread.old) reply.now }
    ensures of { AreOf (H.setting host.now).program (list_of thread.new) }
{
    match thread.doing() {
        Activity::Runs => frame_answered(thread, arguments, host, reply),
        Activity::BeginsMain(_) => main_answered(thread, host, reply),
        Activity::BeginsThread(object) => thread_answered(thread, host, object, reply),
        Activity::Enters => entry_answered(thread, host, reply),
        Activity::Unwinds(thrown, class) => exit_answered(thread, host, thrown, class, reply),
        Activity::Initialises(_) => superclass_answered(thread, host, reply),
        Activity::Initialised => initialised(thread, host),
        _ => Said::Nothing,
    }
}
