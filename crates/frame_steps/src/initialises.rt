//! How classes are initialised, and what goes on once they are.

ghost use Rattle.std.specs.Prelude.{◌≡◌, [], IfSome, None};
ghost use Rattle.frames.specs.Calls.{begins_initialiser, initialises, resumes, runs_initialiser, begins_with, if_room};
ghost use Rattle.frames.specs.Calls.{returns_to, goes_on};
ghost use Rattle.frames.specs.Settings.{Ends};
ghost use Rattle.frame_thread.specs.Stacked.{list_of, stepped, IsBelowEnd};
ghost use Rattle.frame_steps.specs.Sized.{AreOf};
ghost use Rattle.frame_steps.specs.Beginnings.{below_of, IsBase};

use crate::begins::{Base, code, full, native, push};
use crate::gives::gives;
use frame_thread::tables::{first_initialised, initialiser, outline_at};
use frame_thread::{Activity, Form, Host, Said, Thread};
use frames::{Body, Given};
use run_types::At;

// Where a frame begins that leaves the others.
fn base<R: Copy + Drop, N: Copy + Drop>(thread: &Thread<R, N>) -> Base
    requires { IfSome thread.now.form IsBelowEnd }
    ensures base { IsBase result thread.now.form }
    ensures below { below_of result (list_of thread.now) ≡ list_of thread.now }
{
    match thread.form() {
        None => Base::Nothing,
        Some(_) => Base::Others,
    }
}

/// The initialiser of a class runs its method, where it has one.
pub fn runs_initialiser<
    M: Copy + Drop,
    R: Copy + Drop,
    N: Copy + Drop,
    V: Drop,
    H: Host<M, R, N, V>,
>(thread: &mut Thread<R, N>, host: &H, class: u32) -> Said<R>
    requires waits { IfSome thread.old.form IsBelowEnd }
    requires of { AreOf (H.setting host.now).program (list_of thread.old) }
    ensures step { stepped result thread.new ≡ runs_initialiser (H.setting host.now) class (list_of thread.old) }
    ensures of { AreOf (H.setting host.now).program (list_of thread.new) }
{
    let Some(number) = initialiser(host.program(), class) else {
        thread.set_doing(Activity::Initialised);
        return Said::Nothing;
    };
    let base = base(thread);
    match outline_at(host.program(), number).body {
        Body::Code(entry) => code(thread, host, base, number, entry, None),
        Body::Native(method) => native(thread, host, base, number, method, None),
        Body::Empty => empty(thread, host),
    }
}

// A method that does nothing gives nothing back.
fn empty<M: Copy + Drop, R: Copy + Drop, N: Copy + Drop, V: Drop, H: Host<M, R, N, V>>(
    thread: &mut Thread<R, N>,
    host: &H,
) -> Said<R>
    requires waits { IfSome thread.old.form IsBelowEnd }
    requires of { AreOf (H.setting host.now).program (list_of thread.old) }
    ensures step { stepped result thread.new
        ≡ if_room (H.setting host.now) 16 (list_of thread.old) (returns_to (H.setting host.now) Given.Nothing (list_of thread.old)) }
    ensures of { AreOf (H.setting host.now).program (list_of thread.new) }
{
    if thread.left() < 16 {
        return full(thread, 16);
    }
    gives(thread, host, Given::Nothing)
}

/// The last frame is the initialiser of a class, and asks for the superclass first.
pub fn begins_initialiser<
    M: Copy + Drop,
    R: Copy + Drop,
    N: Copy + Drop,
    V: Drop,
    H: Host<M, R, N, V>,
>(thread: &mut Thread<R, N>, host: &H, class: u32) -> Said<R>
    requires waits { IfSome thread.old.form IsBelowEnd }
    requires of { AreOf (H.setting host.now).program (list_of thread.old) }
    ensures step { stepped result thread.new ≡ begins_initialiser (H.setting host.now) class (list_of thread.old) }
    ensures of { AreOf (H.setting host.now).program (list_of thread.new) }
{
    match first_initialised(host.program(), class) {
        None => runs_initialiser(thread, host, class),
        Some(superclass) => {
            thread.set_doing(Activity::Initialises(superclass));
            Said::Nothing
        }
    }
}

/// A class is initialised for the last frame.
pub fn initialises<M: Copy + Drop, R: Copy + Drop, N: Copy + Drop, V: Drop, H: Host<M, R, N, V>>(
    thread: &mut Thread<R, N>,
    host: &H,
    class: u32,
    from: At,
) -> Said<R>
    requires waits { IfSome thread.old.form IsBelowEnd }
    requires of { AreOf (H.setting host.now).program (list_of thread.old) }
    ensures step { stepped result thread.new ≡ initialises (H.setting host.now) class from (list_of thread.old) }
    ensures of { AreOf (H.setting host.now).program (list_of thread.new) }
{
    if thread.left() < 16 {
        return full(thread, 16);
    }
    let base = base(thread);
    push(thread, base, Form::Initialiser { class, from });
    begins_initialiser(thread, host, class)
}

/// A method is the only one, with this receiver.
pub fn begins_alone<M: Copy + Drop, R: Copy + Drop, N: Copy + Drop, V: Drop, H: Host<M, R, N, V>>(
    thread: &mut Thread<R, N>,
    host: &H,
    number: u32,
    receiver: R,
) -> Said<R>
    requires of { AreOf (H.setting host.now).program (list_of thread.old) }
    ensures step { stepped result thread.new
        ≡ begins_with (H.setting host.now) number receiver (list_of thread.old) [] (goes_on (Ends None) []) }
    ensures of { AreOf (H.setting host.now).program (list_of thread.new) }
{
    match outline_at(host.program(), number).body {
        Body::Code(entry) => code(thread, host, Base::Nothing, number, entry, Some(receiver)),
        Body::Native(method) => native(thread, host, Base::Nothing, number, method, Some(receiver)),
        Body::Empty => nothing(thread, host),
    }
}

// The only method does nothing.
fn nothing<M: Copy + Drop, R: Copy + Drop, N: Copy + Drop, V: Drop, H: Host<M, R, N, V>>(
    thread: &mut Thread<R, N>,
    host: &H,
) -> Said<R>
    requires of { AreOf (H.setting host.now).program (list_of thread.old) }
    ensures step { stepped result thread.new
        ≡ if_room (H.setting host.now) 16 (list_of thread.old) (goes_on (Ends None) []) }
    ensures of { AreOf (H.setting host.now).program (list_of thread.new) }
{
    if thread.left() < 16 {
        return full(thread, 16);
    }
    thread.clear();
    thread.set_doing(Activity::Ends(None));
    Said::Nothing
}

/// The last frame goes on, once the class for which it waited is done.
pub fn resumes<M: Copy + Drop, R: Copy + Drop, N: Copy + Drop, V: Drop, H: Host<M, R, N, V>>(
    thread: &mut Thread<R, N>,
    host: &H,
) -> Said<R>
    requires waits { IfSome thread.old.form IsBelowEnd }
    requires of { AreOf (H.setting host.now).program (list_of thread.old) }
    ensures step { stepped result thread.new ≡ resumes (H.setting host.now) (list_of thread.old) }
    ensures of { AreOf (H.setting host.now).program (list_of thread.new) }
{
    match thread.form() {
        Some(Form::Main { method, arguments }) => begins_alone(thread, host, method, arguments),
        Some(Form::Initialiser { class, from: _ }) => begins_initialiser(thread, host, class),
        _ => {
            thread.set_doing(Activity::Runs);
            Said::Nothing
        }
    }
}
