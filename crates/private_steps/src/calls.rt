//! Calls by the method that runs.

ghost use Rattle.std.specs.Prelude.{◌≡◌, ℕ, ◌<◌, ◌≤◌, ◌-◌, length, take, List, [], Some, IsSome, IfSome};
ghost use Rattle.frame_cells.specs.declared.cell.Cell.{Cell};
ghost use Rattle.frame_cells.specs.Own.{reference_at};
ghost use Rattle.frames.specs.declared.given.Given.{Given as Argument};
ghost use Rattle.frames.specs.declared.program.Body.TheVariants as body;
ghost use Rattle.frames.specs.Settings.{Runs};
ghost use Rattle.frames.specs.Tables.{method_at};
ghost use Rattle.frames.specs.Calls.{Stepped, arguments_on, cells_taken, begins_body, calls, returns_to};
ghost use Rattle.frames.specs.Turns.{calls_special};
ghost use Rattle.private_steps.specs.Arguments.{IsTaken};
ghost use Rattle.frame_thread.specs.Stacked.{list_of, frames_with, stepped, without, IsBelowEnd};
ghost use Rattle.frame_steps.specs.Sized.{AreOf};

use crate::arguments::{Arguments, receiver, taken};
use frame_cells::Did;
use frame_steps::begins::{enters, full};
use frame_steps::done::{bad, raise};
use frame_steps::gives::gives;
use frame_thread::tables::{outline_at, parameters, start};
use frame_thread::{Activity, Fault, Form, Host, Said, Standing, Thread};
use frames::{Body, Given};

// A method with code is called.
fn code<M: Copy + Drop, R: Copy + Drop, N: Copy + Drop, V: Drop, H: Host<M, R, N, V>>(
    thread: &mut Thread<R, N>,
    host: &H,
    number: u32,
    entry: u32,
    taken: usize,
) -> Said<R>
    requires form { IsSome thread.old.form }
    requires waits { IfSome thread.old.form IsBelowEnd }
    requires taken { taken ≤ length thread.old.own.stack }
    requires of { AreOf (H.setting host.now).program (list_of thread.old) }
    ensures step { (arguments : List (Argument R)) (empty : Stepped R N V) → stepped result thread.new
        ≡ begins_body (H.setting host.now) number (take taken thread.old.own.stack) arguments (list_of thread.old)
        (frames_with thread.old.form (without taken thread.old.own) thread.old.below) empty (body.Code entry) }
    ensures of { AreOf (H.setting host.now).program (list_of thread.new) }
{
    let method = outline_at(host.program(), number);
    let locals = method.max_locals as usize;
    let room = method.max_stack as usize;
    if locals < taken {
        thread.set_doing(Activity::Runs);
        return Said::Breaks(Fault::BadCode(start(host.program(), number)));
    }
    if thread.left() < 4 + locals + room {
        return full(thread, 4 + locals + room);
    }
    thread.call(number, entry as usize, taken, locals, room);
    enters(thread, host, number);
    Said::Nothing
}

// The arguments leave the stack.
fn take<R: Copy + Drop, N: Copy + Drop>(thread: &mut Thread<R, N>, taken: usize)
    requires { taken ≤ length thread.old.own.stack }
    ensures { thread.new ≡ record thread.old { own = without taken thread.old.own } }
{
    let _depth = thread.cells().depth();
    thread.put(taken, Given::Nothing, Did::Next);
}

// A native method is called.
fn native<M: Copy + Drop, R: Copy + Drop, N: Copy + Drop, V: Drop, H: Host<M, R, N, V>>(
    thread: &mut Thread<R, N>,
    arguments: &mut Arguments<R>,
    host: &H,
    number: u32,
    method: M,
    taken: usize,
) -> Said<R>
    requires form { IsSome thread.old.form }
    requires waits { IfSome thread.old.form IsBelowEnd }
    requires taken { taken ≤ length thread.old.own.stack }
    requires few { length thread.old.own.stack ≤ 65536 }
    requires of { AreOf (H.setting host.now).program (list_of thread.old) }
    ensures step { (given : List (Argument R)) (empty : Stepped R N V) →
        arguments_on (method_at (H.setting host.now).program number).parameters thread.old.own.stack [] ≡ Some given →
        stepped result thread.new
        ≡ begins_body (H.setting host.now) number (take taken thread.old.own.stack) given (list_of thread.old)
        (frames_with thread.old.form (without taken thread.old.own) thread.old.below) empty (body.Native method) }
    ensures of { AreOf (H.setting host.now).program (list_of thread.new) }
{
    if thread.left() < 16 {
        return full(thread, 16);
    }
    let from = start(host.program(), number);
    arguments.read(parameters(host.program(), number), thread.cells());
    let state = host.start(method, from, arguments.as_slice());
    take(thread, taken);
    thread.push(Form::Native { from, state });
    thread.set_doing(Activity::Runs);
    Said::Nothing
}

// A method that does nothing is called.
fn empty<M: Copy + Drop, R: Copy + Drop, N: Copy + Drop, V: Drop, H: Host<M, R, N, V>>(
    thread: &mut Thread<R, N>,
    host: &H,
    taken: usize,
) -> Said<R>
    requires waits { IfSome thread.old.form IsBelowEnd }
    requires taken { taken ≤ length thread.old.own.stack }
    requires of { AreOf (H.setting host.now).program (list_of thread.old) }
    ensures step { (k : ℕ) (cells : List (Cell R)) (arguments : List (Argument R)) →
        let caller = frames_with thread.old.form (without taken thread.old.own) thread.old.below in
        stepped result thread.new
        ≡ begins_body (H.setting host.now) k cells arguments (list_of thread.old) caller
        (returns_to (H.setting host.now) Given.Nothing caller) body.Empty }
    ensures of { AreOf (H.setting host.now).program (list_of thread.new) }
{
    if thread.left() < 16 {
        return full(thread, 16);
    }
    take(thread, taken);
    gives(thread, host, Given::Nothing)
}

// How many cells the stack of the method that runs has.
fn depth<M: Copy + Drop, R: Copy + Drop, N: Copy + Drop, V: Drop, H: Host<M, R, N, V>>(
    thread: &Thread<R, N>,
    host: &H,
    standing: Standing<R>,
) -> usize
    requires form { thread.now.form ≡ Some (Form.Running standing) }
    requires of { AreOf (H.setting host.now).program (list_of thread.now) }
    ensures depth { result ≡ length thread.now.own.stack }
    ensures few { result ≤ 65536 }
{
    let _room = outline_at(host.program(), standing.method).max_stack as usize;
    thread.cells().depth()
}

/// The method that runs calls one, whose arguments lie on top of its stack.
#[inline(always)]
pub fn calls<M: Copy + Drop, R: Copy + Drop, N: Copy + Drop, V: Drop, H: Host<M, R, N, V>>(
    thread: &mut Thread<R, N>,
    arguments: &mut Arguments<R>,
    host: &H,
    standing: Standing<R>,
    number: u32,
) -> Said<R>
    requires form { thread.old.form ≡ Some (Form.Running standing) }
    requires next { standing.at < 18446744073709551615 }
    requires doing { thread.old.doing ≡ Runs }
    requires of { AreOf (H.setting host.now).program (list_of thread.old) }
    ensures step { stepped result thread.new
        ≡ calls (H.setting host.now) number standing.method standing.at thread.old.own standing.held thread.old.below }
    ensures of { AreOf (H.setting host.now).program (list_of thread.new) }
{
    let _depth = depth(thread, host, standing);
    let Some(count) = taken(parameters(host.program(), number), thread.cells()) else {
        return bad(host, standing);
    };
    match outline_at(host.program(), number).body {
        Body::Code(entry) => code(thread, host, number, entry, count),
        Body::Native(method) => native(thread, arguments, host, number, method, count),
        Body::Empty => empty(thread, host, count),
    }
}

/// `invokespecial`, which tests its receiver for null alone.
pub fn calls_special<M: Copy + Drop, R: Copy + Drop, N: Copy + Drop, V: Drop, H: Host<M, R, N, V>>(
    thread: &mut Thread<R, N>,
    arguments: &mut Arguments<R>,
    host: &H,
    standing: Standing<R>,
    number: u32,
) -> Said<R>
    requires form { thread.old.form ≡ Some (Form.Running standing) }
    requires next { standing.at < 18446744073709551615 }
    requires doing { thread.old.doing ≡ Runs }
    requires of { AreOf (H.setting host.now).program (list_of thread.old) }
    ensures step { let receiver = reference_at (cells_taken (method_at (H.setting host.now).program number).parameters - 1) thread.old.own in
        stepped result thread.new
        ≡ calls_special (H.setting host.now) receiver number standing.method standing.at thread.old.own standing.held thread.old.below }
    ensures of { AreOf (H.setting host.now).program (list_of thread.new) }
{
    let _depth = depth(thread, host, standing);
    let Some(receiver) = receiver(parameters(host.program(), number), thread.cells()) else {
        return bad(host, standing);
    };
    if host.is_null(receiver) {
        return raise(host, standing, host.program().null_pointer);
    }
    calls(thread, arguments, host, standing, number)
}
