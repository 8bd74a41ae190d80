//! What a reply means to the instruction that asked.

ghost use Rattle.std.specs.Prelude.{◌≡◌, ◌<◌, Some};
ghost use Rattle.frame_cells.specs.Families.{to};
ghost use Rattle.frames.specs.Tables.{placed_at};
ghost use Rattle.frames.specs.Settings.{Runs};
ghost use Rattle.frames.specs.Turns.{is_yes, is_so, replied, instruction_answered, gives_back};
ghost use Rattle.frames.specs.Calls.{result_of, cells_of};
ghost use Rattle.frame_thread.specs.Stacked.{list_of, stepped};
ghost use Rattle.frame_steps.specs.Sized.{AreOf};
ghost use Rattle.private_steps.specs.Replies.{cells_replied, IsPlain};

use crate::arguments::Arguments;
use crate::calls::calls;
use code_form::{Equality, Sort};
use frame_cells::Did;
use frame_steps::done::{bad, done};
use frame_steps::gives::gives;
use frame_steps::initialises::initialises;
use frame_steps::returns::given;
use frame_steps::throws::throws;
use frame_thread::requests::taken_by;
use frame_thread::tables::{dispatched, from, placed, selector};
use frame_thread::{Fault, Form, Host, Said, Standing, Thread};
use frames::{Given, Op, Target};
use natives::Reply;

// Whether a reply says yes.
#[inline(always)]
fn is_yes<R: Copy + Drop>(value: Given<R>) -> bool
    ensures { result ≡ is_yes (cells_of value) }
{
    match value {
        Given::Int(0) => false,
        _ => true,
    }
}

#[inline(always)]
fn is_so(equality: Equality, same: bool) -> bool
    ensures { result ≡ is_so equality same }
{
    match equality {
        Equality::Equal => same,
        Equality::NotEqual => !same,
    }
}

#[inline(always)]
fn to(holds: bool, target: u32) -> Did
    ensures { result ≡ to holds target }
{
    if holds { Did::Jump(target) } else { Did::Next }
}

// What a reply without a rule of its own gives to the instruction that asked.
#[inline(always)]
fn given_by<M: Copy + Drop, R: Copy + Drop, N: Copy + Drop, V: Drop, H: Host<M, R, N, V>>(
    host: &H,
    reply: &Reply<R, V>,
) -> Given<R>
    ensures { cells_of result ≡ cells_replied (H.setting host.now) reply.now }
{
    match reply {
        Reply::Item(value) => host.given(value),
        Reply::Made(object) => Given::Reference(*object),
        _ => Given::Nothing,
    }
}

// The cells of a reply come in place of those that the instruction took, and it is done.
#[inline(always)]
fn replaces<M: Copy + Drop, R: Copy + Drop, N: Copy + Drop, V: Drop, H: Host<M, R, N, V>>(
    thread: &mut Thread<R, N>,
    host: &H,
    standing: Standing<R>,
    op: Op,
    reply: &Reply<R, V>,
) -> Said<R>
    requires form { thread.old.form ≡ Some (Form.Running standing) }
    requires next { standing.at < 18446744073709551615 }
    requires of { AreOf (H.setting host.now).program (list_of thread.old) }
    ensures step { stepped result thread.new
        ≡ replied (H.setting host.now) op standing.method standing.at thread.old.own standing.held thread.old.below
        (cells_replied (H.setting host.now) reply.now) }
    ensures of { AreOf (H.setting host.now).program (list_of thread.new) }
{
    let did = thread.put(taken_by(host, op), given_by(host, reply), Did::Next);
    done(thread, host, standing, did)
}

// `if_acmpeq`, `if_acmpne`.
fn branches<M: Copy + Drop, R: Copy + Drop, N: Copy + Drop, V: Drop, H: Host<M, R, N, V>>(
    thread: &mut Thread<R, N>,
    host: &H,
    standing: Standing<R>,
    equality: Equality,
    target: u32,
    reply: &Reply<R, V>,
) -> Said<R>
    requires form { thread.old.form ≡ Some (Form.Running standing) }
    requires next { standing.at < 18446744073709551615 }
    requires reply { IsPlain reply.now }
    requires of { AreOf (H.setting host.now).program (list_of thread.old) }
    ensures step { stepped result thread.new
        ≡ instruction_answered (H.setting host.now) (Op.IfSame equality target) standing.method standing.at thread.old.own standing.held
        thread.old.below reply.now }
    ensures of { AreOf (H.setting host.now).program (list_of thread.new) }
{
    let Reply::Item(value) = reply else {
        return replaces(thread, host, standing, Op::IfSame(equality, target), reply);
    };
    let same = is_yes(host.given(value));
    let did = thread.put(2, Given::Nothing, to(is_so(equality, same), target));
    done(thread, host, standing, did)
}

// The method of a class that a virtual call selects.
fn calls_selected<M: Copy + Drop, R: Copy + Drop, N: Copy + Drop, V: Drop, H: Host<M, R, N, V>>(
    thread: &mut Thread<R, N>,
    arguments: &mut Arguments<R>,
    host: &H,
    standing: Standing<R>,
    number: u32,
    reply: &Reply<R, V>,
) -> Said<R>
    requires form { thread.old.form ≡ Some (Form.Running standing) }
    requires next { standing.at < 18446744073709551615 }
    requires doing { thread.old.doing ≡ Runs }
    requires reply { IsPlain reply.now }
    requires of { AreOf (H.setting host.now).program (list_of thread.old) }
    ensures step { stepped result thread.new
        ≡ instruction_answered (H.setting host.now) (Op.InvokeVirtual number) standing.method standing.at thread.old.own standing.held
        thread.old.below reply.now }
    ensures of { AreOf (H.setting host.now).program (list_of thread.new) }
{
    let Reply::Shape(class) = reply else {
        return replaces(thread, host, standing, Op::InvokeVirtual(number), reply);
    };
    let selector = selector(host.program(), number);
    match dispatched(host.program(), *class, selector.signature) {
        Target::Method(method) => calls(thread, arguments, host, standing, method),
        Target::Fails(kind) => Said::Breaks(Fault::Unlinked {
            kind,
            class: selector.class,
            index: selector.index as u32,
        }),
    }
}

// `athrow` of a throwable of a class.
fn throws_top<M: Copy + Drop, R: Copy + Drop, N: Copy + Drop, V: Drop, H: Host<M, R, N, V>>(
    thread: &mut Thread<R, N>,
    host: &H,
    standing: Standing<R>,
    reply: &Reply<R, V>,
) -> Said<R>
    requires form { thread.old.form ≡ Some (Form.Running standing) }
    requires next { standing.at < 18446744073709551615 }
    requires doing { thread.old.doing ≡ Runs }
    requires reply { IsPlain reply.now }
    requires of { AreOf (H.setting host.now).program (list_of thread.old) }
    ensures step { stepped result thread.new
        ≡ instruction_answered (H.setting host.now) Op.Throw standing.method standing.at thread.old.own standing.held
        thread.old.below reply.now }
    ensures of { AreOf (H.setting host.now).program (list_of thread.new) }
{
    let Reply::Shape(class) = reply else {
        return replaces(thread, host, standing, Op::Throw, reply);
    };
    match thread.cells().reference_at(0) {
        None => bad(host, standing),
        Some(thrown) => throws(thread, host, thrown, *class),
    }
}

// A synchronized method returns that has given its monitor back.
fn gives_back<M: Copy + Drop, R: Copy + Drop, N: Copy + Drop, V: Drop, H: Host<M, R, N, V>>(
    thread: &mut Thread<R, N>,
    host: &H,
    standing: Standing<R>,
    sort: Option<Sort>,
) -> Said<R>
    requires form { thread.old.form ≡ Some (Form.Running standing) }
    requires doing { thread.old.doing ≡ Runs }
    requires of { AreOf (H.setting host.now).program (list_of thread.old) }
    ensures step { stepped result thread.new
        ≡ gives_back (H.setting host.now) (result_of sort thread.old.own) standing.method standing.at thread.old.own standing.held
        thread.old.below }
    ensures of { AreOf (H.setting host.now).program (list_of thread.new) }
{
    let Some(value) = given(thread.cells(), sort) else {
        return bad(host, standing);
    };
    thread.pop();
    gives(thread, host, value)
}

// What an instruction comes to whose request was done.
fn goes_on<M: Copy + Drop, R: Copy + Drop, N: Copy + Drop, V: Drop, H: Host<M, R, N, V>>(
    thread: &mut Thread<R, N>,
    arguments: &mut Arguments<R>,
    host: &H,
    standing: Standing<R>,
    op: Op,
    reply: &Reply<R, V>,
) -> Said<R>
    requires form { thread.old.form ≡ Some (Form.Running standing) }
    requires next { standing.at < 18446744073709551615 }
    requires doing { thread.old.doing ≡ Runs }
    requires reply { IsPlain reply.now }
    requires of { AreOf (H.setting host.now).program (list_of thread.old) }
    ensures step { stepped result thread.new
        ≡ instruction_answered (H.setting host.now) op standing.method standing.at thread.old.own standing.held thread.old.below
        reply.now }
    ensures of { AreOf (H.setting host.now).program (list_of thread.new) }
{
    match op {
        Op::InvokeStatic(number) => calls(thread, arguments, host, standing, number),
        Op::InvokeVirtual(number) => calls_selected(
            thread, arguments, host, standing, number, reply,
        ),
        Op::Throw => throws_top(thread, host, standing, reply),
        Op::Return => gives_back(thread, host, standing, None),
        Op::ReturnValue(sort) => gives_back(thread, host, standing, Some(sort)),
        Op::IfSame(equality, target) => branches(thread, host, standing, equality, target, reply),
        _ => replaces(thread, host, standing, op, reply),
    }
}

/// What comes of the reply to the request of an instruction.
pub fn instruction_answered<
    M: Copy + Drop,
    R: Copy + Drop,
    N: Copy + Drop,
    V: Drop,
    H: Host<M, R, N, V>,
>(
    thread: &mut Thread<R, N>,
    arguments: &mut Arguments<R>,
    host: &H,
    standing: Standing<R>,
    reply: &Reply<R, V>,
) -> Said<R>
    requires form { thread.old.form ≡ Some (Form.Running standing) }
    requires next { standing.at < 18446744073709551615 }
    requires doing { thread.old.doing ≡ Runs }
    requires of { AreOf (H.setting host.now).program (list_of thread.old) }
    ensures step { stepped result thread.new
        ≡ instruction_answered (H.setting host.now) (placed_at (H.setting host.now).program standing.at).op standing.method standing.at
        thread.old.own standing.held thread.old.below reply.now }
    ensures of { AreOf (H.setting host.now).program (list_of thread.new) }
{
    match reply {
        Reply::Thrown { object, class } => throws(thread, host, *object, *class),
        Reply::Init(class) => {
            let from = from(host.program(), standing.method, standing.at);
            initialises(thread, host, *class, from)
        }
        _ => {
            let op = placed(host.program(), standing.at).op;
            goes_on(thread, arguments, host, standing, op, reply)
        }
    }
}
