//! What a method gives back goes to the frame below.

ghost use Rattle.std.specs.Prelude.{◌≡◌, Some, None, IfSome};
ghost use Rattle.run_types.specs.declared.fault.LinkKind.TheVariants as kind;
ghost use Rattle.run_types.specs.declared.fault.StepFault.TheVariants as fault;
ghost use Rattle.frames.specs.declared.given.Given.{Given};
ghost use Rattle.frames.specs.Settings.{Runs};
ghost use Rattle.frames.specs.Calls.{Stepped, native_does, begins_with, begins_found, breaks, returns_to, reply_of};
ghost use Rattle.frames.specs.Calls.{signature_of};
ghost use Rattle.frame_thread.specs.Views.{native_step, called};
ghost use Rattle.frame_thread.specs.Stacked.{list_of, stepped, IsBelowEnd};
ghost use Rattle.frame_steps.specs.Sized.{AreOf};
ghost use Rattle.frame_steps.specs.Beginnings.{IsBase};
ghost use Rattle.frame_steps.specs.Gives.{gave, IsGiven};

use crate::begins::{Base, code, full, native};
use crate::done::done;
use frame_cells::Did;
use frame_thread::tables::{dispatched, outline_at};
use frame_thread::{Activity, Advance, Callee, Fault, Form, Host, Said, Thread};
use frames::{Body, Given, Target};
use natives::Reply;
use run_types::{At, LinkKind};

/// What comes of a native method's step: what the turn says, or a value that the method gives back.
#[derive(Clone, Copy)]
pub enum Gave<R> {
    Said(Said<R>),
    Value(Given<R>),
}

// What a called method gives back, as a reply to the native method that called it.
fn reply_of<M: Copy + Drop, R: Copy + Drop, N: Copy + Drop, V: Drop, H: Host<M, R, N, V>>(
    host: &H,
    value: Given<R>,
) -> Reply<R, V>
    ensures { result ≡ reply_of (H.setting host.now) value }
{
    match value {
        Given::Nothing => Reply::Done,
        Given::Int(v) => Reply::Item(host.of_int(v)),
        Given::Long(v) => Reply::Item(host.of_long(v)),
        Given::Reference(r) => Reply::Item(host.of_reference(r)),
    }
}

// A method that can't be called.
pub fn unlinked<R: Copy + Drop, N: Copy + Drop>(
    thread: &mut Thread<R, N>,
    kind: LinkKind,
    class: u32,
) -> Said<R>
    ensures said { result ≡ Said.Breaks (Fault.Unlinked kind class 0) }
    ensures thread { thread.new ≡ record thread.old { doing = Runs } }
{
    thread.set_doing(Activity::Runs);
    Said::Breaks(Fault::Unlinked {
        kind,
        class,
        index: 0,
    })
}

// A native method calls a method, above its frame.
fn callee<M: Copy + Drop, R: Copy + Drop, N: Copy + Drop, V: Drop, H: Host<M, R, N, V>>(
    thread: &mut Thread<R, N>,
    host: &H,
    number: u32,
    class: u32,
    receiver: R,
) -> Said<R>
    requires base { IsBase Base.Others thread.old.form }
    requires of { AreOf (H.setting host.now).program (list_of thread.old) }
    ensures step { stepped result thread.new
        ≡ begins_with (H.setting host.now) number receiver (list_of thread.old) (list_of thread.old)
        (breaks (fault.LinkFault kind.NoCode class 0) (list_of thread.old)) }
    ensures of { AreOf (H.setting host.now).program (list_of thread.new) }
{
    match outline_at(host.program(), number).body {
        Body::Code(entry) => code(thread, host, Base::Others, number, entry, Some(receiver)),
        Body::Native(method) => {
            native(thread, host, Base::Others, number, method, Some(receiver))
        },
        Body::Empty => {
            if thread.left() < 16 {
                full(thread, 16)
            } else {
                unlinked(thread, LinkKind::NoCode, class)
            }
        }
    }
}

fn signature_of<M: Copy + Drop, R: Copy + Drop, N: Copy + Drop, V: Drop, H: Host<M, R, N, V>>(
    host: &H,
    callee: Callee,
) -> u32
    ensures { result ≡ signature_of (H.setting host.now) (called callee) }
{
    match callee {
        Callee::Run => host.program().run,
        Callee::ToString => host.program().to_string,
    }
}

// The same, by the class of the receiver.
fn found<M: Copy + Drop, R: Copy + Drop, N: Copy + Drop, V: Drop, H: Host<M, R, N, V>>(
    thread: &mut Thread<R, N>,
    host: &H,
    target: Target,
    class: u32,
    receiver: R,
) -> Said<R>
    requires base { IsBase Base.Others thread.old.form }
    requires of { AreOf (H.setting host.now).program (list_of thread.old) }
    ensures step { stepped result thread.new
        ≡ begins_found (H.setting host.now) target class receiver (list_of thread.old) (list_of thread.old)
        (breaks (fault.LinkFault kind.NoCode class 0) (list_of thread.old)) }
    ensures of { AreOf (H.setting host.now).program (list_of thread.new) }
{
    match target {
        Target::Method(number) => callee(thread, host, number, class, receiver),
        Target::Fails(kind) => unlinked(thread, kind, class),
    }
}

/// What the native method does that is the last frame.
pub fn advances<M: Copy + Drop, R: Copy + Drop, N: Copy + Drop, V: Drop, H: Host<M, R, N, V>>(
    thread: &mut Thread<R, N>,
    host: &H,
    from: At,
    state: N,
    advance: Advance<R, N>,
) -> Gave<R>
    requires form { thread.old.form ≡ Some (Form.Native from state) }
    requires of { AreOf (H.setting host.now).program (list_of thread.old) }
    ensures step { (gives : Given R → Stepped R N V) →
        gave gives result thread.new ≡ native_does (H.setting host.now) (native_step advance) from thread.old.below gives }
    ensures given { IsGiven result thread.old thread.new }
    ensures of { AreOf (H.setting host.now).program (list_of thread.new) }
{
    match advance {
        Advance::Asks(state) => {
            thread.restate(state);
            thread.set_doing(Activity::Runs);
            Gave::Said(Said::Nothing)
        }
        Advance::Calls {
            state,
            callee,
            class,
            receiver,
        } => {
            thread.restate(state);
            let target = dispatched(host.program(), class, signature_of(host, callee));
            Gave::Said(found(thread, host, target, class, receiver))
        }
        Advance::Gives(value) => {
            thread.pop();
            Gave::Value(value)
        }
    }
}

// A value goes to the last frame, whatever that is.
#[inline(never)]
fn gives_any<M: Copy + Drop, R: Copy + Drop, N: Copy + Drop, V: Drop, H: Host<M, R, N, V>>(
    thread: &mut Thread<R, N>,
    host: &H,
    value: Given<R>,
) -> Said<R>
    requires waits { IfSome thread.old.form IsBelowEnd }
    requires of { AreOf (H.setting host.now).program (list_of thread.old) }
    ensures step { stepped result thread.new ≡ returns_to (H.setting host.now) value (list_of thread.old) }
    ensures of { AreOf (H.setting host.now).program (list_of thread.new) }
{
    let mut value = value;
    loop {
        match thread.form() {
            Some(Form::Running(standing)) => {
                let did = thread.put(0, value, Did::Next);
                return done(thread, host, standing, did);
            }
            Some(Form::Native { from, state }) => {
                let next = host.next(state, &reply_of(host, value));
                match advances(thread, host, from, state, next) {
                    Gave::Value(given) => value = given,
                    Gave::Said(said) => return said,
                }
            }
            Some(Form::Initialiser { class: _, from: _ }) => {
                thread.set_doing(Activity::Initialised);
                return Said::Nothing;
            }
            _ => {
                thread.clear();
                thread.set_doing(Activity::Ends(None));
                return Said::Nothing;
            }
        }
    }
}

/// A value goes to the last frame, which goes on after its instruction.
#[inline(always)]
pub fn gives<M: Copy + Drop, R: Copy + Drop, N: Copy + Drop, V: Drop, H: Host<M, R, N, V>>(
    thread: &mut Thread<R, N>,
    host: &H,
    value: Given<R>,
) -> Said<R>
    requires waits { IfSome thread.old.form IsBelowEnd }
    requires of { AreOf (H.setting host.now).program (list_of thread.old) }
    ensures step { stepped result thread.new ≡ returns_to (H.setting host.now) value (list_of thread.old) }
    ensures of { AreOf (H.setting host.now).program (list_of thread.new) }
{
    // Mostly that is a method's.
    if let Some(Form::Running(standing)) = thread.form() {
        let did = thread.put(0, value, Did::Next);
        return done(thread, host, standing, did);
    }
    gives_any(thread, host, value)
}
