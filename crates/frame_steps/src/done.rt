//! What comes of an instruction that changes the cells of its frame alone.

ghost use Rattle.std.specs.Prelude.{◌≡◌, ◌<◌, Some};
ghost use Rattle.frames.specs.Tables.{from_of, method_at};
ghost use Rattle.frames.specs.Calls.{done_so};
ghost use Rattle.frame_thread.specs.Stacked.{list_of, stepped};
ghost use Rattle.frame_steps.specs.Sized.{AreOf};

use frame_cells::Did;
use frame_thread::tables::{from, outline_at};
use frame_thread::{Activity, Fault, Form, Host, Said, Standing, Thread};
use frames::Link;

/// What comes of an instruction of the method that runs.
#[inline(always)]
pub fn done<M: Copy + Drop, R: Copy + Drop, N: Copy + Drop, V: Drop, H: Host<M, R, N, V>>(
    thread: &mut Thread<R, N>,
    host: &H,
    standing: Standing<R>,
    did: Did,
) -> Said<R>
    requires form { thread.old.form ≡ Some (Form.Running standing) }
    requires next { standing.at < 18446744073709551615 }
    requires of { AreOf (H.setting host.now).program (list_of thread.old) }
    ensures step { stepped result thread.new
        ≡ done_so (H.setting host.now) standing.method standing.at standing.held thread.old.below thread.old.own did }
    ensures of { AreOf (H.setting host.now).program (list_of thread.new) }
{
    thread.set_doing(Activity::Runs);
    match did {
        Did::Next => {
            thread.move_to(standing.at + 1);
            Said::Nothing
        }
        Did::Jump(target) => {
            thread.move_to(target as usize);
            Said::Nothing
        }
        Did::DividedByZero => raise(host, standing, host.program().arithmetic),
        Did::Bad => bad(host, standing),
    }
}

/// A throwable of a class is made.
pub fn raise<M: Copy + Drop, R: Copy + Drop, N: Copy + Drop, V: Drop, H: Host<M, R, N, V>>(
    host: &H,
    standing: Standing<R>,
    class: u32,
) -> Said<R>
    ensures { result ≡ Said.Raise (from_of (H.setting host.now).program standing.method standing.at) class }
{
    Said::Raise {
        from: from(host.program(), standing.method, standing.at),
        class,
    }
}

/// The instruction found something wrong.
pub fn bad<M: Copy + Drop, R: Copy + Drop, N: Copy + Drop, V: Drop, H: Host<M, R, N, V>>(
    host: &H,
    standing: Standing<R>,
) -> Said<R>
    ensures { result ≡ Said.Breaks (Fault.BadCode (from_of (H.setting host.now).program standing.method standing.at)) }
{
    Said::Breaks(Fault::BadCode(from(host.program(), standing.method, standing.at)))
}

/// A pool entry names nothing that can be used.
pub fn unlinked<M: Copy + Drop, R: Copy + Drop, N: Copy + Drop, V: Drop, H: Host<M, R, N, V>>(
    host: &H,
    standing: Standing<R>,
    link: Link,
) -> Said<R>
    ensures { result ≡ Said.Breaks (Fault.Unlinked link.kind (method_at (H.setting host.now).program standing.method).class link.index) }
{
    Said::Breaks(Fault::Unlinked {
        kind: link.kind,
        class: outline_at(host.program(), standing.method).class,
        index: link.index as u32,
    })
}
