//! Throwables.

ghost use Rattle.std.specs.Prelude.{◌≡◌, IfSome, if◌then◌else◌};
ghost use Rattle.frames.specs.Tables.{Caught, Passed, tried, caught_by, covers};
ghost use Rattle.frames.specs.Calls.{throws};
ghost use Rattle.frame_steps.specs.Throws.{caught_or};
ghost use Rattle.frame_thread.specs.Stacked.{list_of, stepped, IsBelowEnd};
ghost use Rattle.frame_steps.specs.Sized.{AreOf};

use crate::done::{done, unlinked};
use frame_cells::Did;
use frame_thread::tables::{handlers, is_subtype};
use frame_thread::{Activity, Fault, Form, Host, Said, Thread};
use frames::{Catch, Given, Handler, Link, Program};
use run_types::LinkKind;

/// What exception entries say of a throwable that left an instruction.
#[derive(Clone, Copy)]
pub enum Catching {
    /// None catches it.
    Passes,
    /// One does, and its code begins here.
    Goes(u32),
    /// One that is tried first can't be resolved.
    Fails(Link),
}

// What an entry says of a throwable of a class that left this instruction.
fn tried<M: Copy + Drop>(program: &Program<M>, handler: &Handler, at: usize, class: u32) -> Catching
    ensures { (later : Caught) → (if covers handler.now at then tried program.now handler.now.catches handler.now.target class later else later)
        ≡ caught_or later result }
{
    if at < handler.start as usize || handler.end as usize <= at {
        return Catching::Passes;
    }
    match handler.catches {
        Catch::All => Catching::Goes(handler.target),
        Catch::Class(of) => {
            if is_subtype(program, class, of) {
                Catching::Goes(handler.target)
            } else {
                Catching::Passes
            }
        }
        Catch::Unlinked(link) => Catching::Fails(link),
    }
}

// What a method's entries say, in their order.
fn caught<M: Copy + Drop>(
    program: &Program<M>,
    handlers: &[Handler],
    at: usize,
    class: u32,
) -> Catching
    ensures { caught_or Passed result ≡ caught_by program.now handlers.now at class }
{
    for handler in handlers {
        match tried(program, handler, at, class) {
            Catching::Passes => {}
            Catching::Goes(target) => return Catching::Goes(target),
            Catching::Fails(link) => return Catching::Fails(link),
        }
    }
    Catching::Passes
}

/// A throwable of a class goes to the first handler that catches it, from the last frame on.
pub fn throws<M: Copy + Drop, R: Copy + Drop, N: Copy + Drop, V: Drop, H: Host<M, R, N, V>>(
    thread: &mut Thread<R, N>,
    host: &H,
    thrown: R,
    class: u32,
) -> Said<R>
    requires waits { IfSome thread.old.form IsBelowEnd }
    requires of { AreOf (H.setting host.now).program (list_of thread.old) }
    ensures step { stepped result thread.new ≡ throws (H.setting host.now) thrown class (list_of thread.old) }
    ensures of { AreOf (H.setting host.now).program (list_of thread.new) }
{
    loop {
        match thread.form() {
            Some(Form::Running(standing)) => {
                let handlers = handlers(host.program(), standing.method);
                match caught(host.program(), handlers, standing.at, class) {
                    Catching::Goes(target) => {
                        let depth = thread.cells().depth();
                        let did = thread.put(depth, Given::Reference(thrown), Did::Jump(target));
                        return done(thread, host, standing, did);
                    }
                    Catching::Fails(link) => {
                        thread.set_doing(Activity::Runs);
                        return unlinked(host, standing, link);
                    }
                    Catching::Passes => {
                        if standing.held.is_some() {
                            thread.set_doing(Activity::Unwinds(thrown, class));
                            return Said::Nothing;
                        }
                        thread.pop();
                    }
                }
            }
            Some(Form::Native { from: _, state: _ }) => thread.pop(),
            Some(Form::Initialiser { class, from: _ }) => {
                thread.set_doing(Activity::Runs);
                return Said::Breaks(Fault::Unlinked {
                    kind: LinkKind::InitFailed,
                    class,
                    index: 0,
                });
            }
            _ => {
                thread.clear();
                thread.set_doing(Activity::Ends(Some(class)));
                return Said::Nothing;
            }
        }
    }
}
