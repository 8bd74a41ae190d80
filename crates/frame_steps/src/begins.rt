//! How the frame of a method begins.

ghost use Rattle.std.specs.Prelude.{◌≡◌, ◌<◌, ◌≤◌, ◌+◌, [], length, replicate, IsSome, IfSome, Some, None};
ghost use Rattle.frames.specs.declared.program.Body.TheVariants as body;
ghost use Rattle.frames.specs.Tables.{method_at};
ghost use Rattle.frames.specs.Settings.{Runs};
ghost use Rattle.frames.specs.Calls.{Stepped, monitor_of, object_in, begins_body};
ghost use Rattle.frame_thread.specs.Stacked.{list_of, stepped, received, room_left, slots_at, IsOther, IsBelowEnd};
ghost use Rattle.frame_steps.specs.Sized.{AreOf};
ghost use Rattle.frame_steps.specs.Beginnings.{below_of, cells_given, entered, IsBase};
ghost use Rattle.frame_thread.specs.Views.{receiver_given};

use frame_cells::{Cell, Cells};
use frame_thread::tables::{outline_at, start};
use frame_thread::{Activity, Fault, Form, Host, Said, Thread};
use frames::Program;
use run_types::Key;

/// Whether a frame begins above the others, or in their place.
#[derive(Clone, Copy)]
pub enum Base {
    Others,
    Nothing,
}

// The monitor of the object in a cell.
fn object<R: Copy + Drop>(cell: Option<Cell<R>>) -> Option<Key<R>>
    ensures { result ≡ object_in cell }
{
    match cell {
        Some(Cell::Reference(r)) => Some(Key::Object(r)),
        _ => None,
    }
}

// What a method holds whose locals are these.
fn monitor<M: Copy + Drop, R: Copy + Drop>(
    program: &Program<M>,
    number: u32,
    cells: &Cells<R>,
) -> Option<Key<R>>
    ensures { result ≡ monitor_of (method_at program.now number) cells.now.own }
{
    let method = outline_at(program, number);
    if !method.is_synchronized {
        return None;
    }
    if method.is_static {
        Some(Key::Class(method.class))
    } else {
        object(cells.local(0))
    }
}

/// The method whose frame was made enters its monitor, if it is synchronized.
#[inline(always)]
pub fn enters<M: Copy + Drop, R: Copy + Drop, N: Copy + Drop, V: Drop, H: Host<M, R, N, V>>(
    thread: &mut Thread<R, N>,
    host: &H,
    number: u32,
)
    requires { IfSome thread.old.form IsBelowEnd }
    ensures { thread.new ≡ entered (method_at (H.setting host.now).program number) thread.old }
{
    if outline_at(host.program(), number).is_synchronized {
        let monitor = monitor(host.program(), number, thread.cells());
        thread.hold(monitor);
        thread.set_doing(Activity::Enters);
        return;
    }
    thread.hold(None);
    thread.set_doing(Activity::Runs);
}

// A method's frame without arguments.
fn make<R: Copy + Drop, N: Copy + Drop>(
    thread: &mut Thread<R, N>,
    base: Base,
    number: u32,
    entry: usize,
    locals: usize,
    room: usize,
)
    requires base { IsBase base thread.old.form }
    requires entry { entry < 18446744073709551615 }
    requires slots { 4 + locals + room ≤ room_left (list_of thread.old) }
    ensures { thread.new ≡ record thread.old {
      form = Some (Form.Running (record { method = number; at = entry; held = None }));
      own = record { locals = replicate locals Cell.Empty; stack = []; room = room };
      below = below_of base (list_of thread.old);
    } }
{
    match base {
        Base::Others => thread.call(number, entry, 0, locals, room),
        Base::Nothing => thread.begin(number, entry, locals, room),
    }
}

// The first local variable of the method that was called.
fn receive<R: Copy + Drop, N: Copy + Drop>(thread: &mut Thread<R, N>, receiver: Option<R>)
    requires { IsSome receiver → 0 < length thread.old.own.locals }
    ensures { thread.new ≡ record thread.old { own = received receiver thread.old.own } }
{
    if let Some(r) = receiver {
        thread.receive(r);
    }
}

// How many cells a receiver takes, where there is one.
fn cells_given<R: Copy + Drop>(receiver: Option<R>) -> usize
    ensures { result ≡ length (cells_given receiver) }
{
    match receiver {
        None => 0,
        Some(_) => 1,
    }
}

/// A method with code begins with this receiver.
pub fn code<M: Copy + Drop, R: Copy + Drop, N: Copy + Drop, V: Drop, H: Host<M, R, N, V>>(
    thread: &mut Thread<R, N>,
    host: &H,
    base: Base,
    number: u32,
    entry: u32,
    receiver: Option<R>,
) -> Said<R>
    requires base { IsBase base thread.old.form }
    requires of { AreOf (H.setting host.now).program (list_of thread.old) }
    ensures step { (empty : Stepped R N V) → stepped result thread.new
        ≡ begins_body (H.setting host.now) number (cells_given receiver) (receiver_given receiver) (list_of thread.old)
        (below_of base (list_of thread.old)) empty (body.Code entry) }
    ensures of { AreOf (H.setting host.now).program (list_of thread.new) }
{
    let method = outline_at(host.program(), number);
    let locals = method.max_locals as usize;
    let room = method.max_stack as usize;
    if locals < cells_given(receiver) {
        thread.set_doing(Activity::Runs);
        return Said::Breaks(Fault::BadCode(start(host.program(), number)));
    }
    if thread.left() < 4 + locals + room {
        return full(thread, 4 + locals + room);
    }
    make(thread, base, number, entry as usize, locals, room);
    receive(thread, receiver);
    enters(thread, host, number);
    Said::Nothing
}

/// A native method begins with this receiver.
pub fn native<M: Copy + Drop, R: Copy + Drop, N: Copy + Drop, V: Drop, H: Host<M, R, N, V>>(
    thread: &mut Thread<R, N>,
    host: &H,
    base: Base,
    number: u32,
    method: M,
    receiver: Option<R>,
) -> Said<R>
    requires base { IsBase base thread.old.form }
    requires of { AreOf (H.setting host.now).program (list_of thread.old) }
    ensures step { (empty : Stepped R N V) → stepped result thread.new
        ≡ begins_body (H.setting host.now) number (cells_given receiver) (receiver_given receiver)
        (list_of thread.old) (below_of base (list_of thread.old)) empty (body.Native method) }
    ensures of { AreOf (H.setting host.now).program (list_of thread.new) }
{
    if thread.left() < 16 {
        return full(thread, 16);
    }
    let from = start(host.program(), number);
    let state = host.begin(method, from, receiver);
    push(thread, base, Form::Native { from, state });
    thread.set_doing(Activity::Runs);
    Said::Nothing
}

/// A frame without cells begins.
pub fn push<R: Copy + Drop, N: Copy + Drop>(thread: &mut Thread<R, N>, base: Base, form: Form<R, N>)
    requires base { IsBase base thread.old.form }
    requires form { IsOther form }
    requires waits { IsBelowEnd form }
    requires slots { 16 ≤ room_left (list_of thread.old) }
    requires few { slots_at form 0 0 ≡ 16 }
    ensures doing { thread.new.doing ≡ thread.old.doing }
    ensures form { thread.new.form ≡ Some form }
    ensures below { thread.new.below ≡ below_of base (list_of thread.old) }
{
    match base {
        Base::Others => thread.push(form),
        Base::Nothing => thread.begin_other(form),
    }
}

/// There are fewer slots left than this.
pub fn full<R: Copy + Drop, N: Copy + Drop>(thread: &mut Thread<R, N>, need: usize) -> Said<R>
    requires { need < 4294967296 }
    ensures said { result ≡ Said.Breaks (Fault.Slots need (room_left (list_of thread.old))) }
    ensures thread { thread.new ≡ record thread.old { doing = Runs } }
{
    thread.set_doing(Activity::Runs);
    Said::Breaks(Fault::Slots {
        need: need as u32,
        left: thread.left() as u32,
    })
}
