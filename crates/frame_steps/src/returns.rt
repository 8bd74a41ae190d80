//! Returns.

ghost use Rattle.std.specs.Prelude.{◌≡◌, Some};
ghost use Rattle.frames.specs.Settings.{Runs};
ghost use Rattle.frames.specs.Calls.{result_of, returns};
ghost use Rattle.frame_thread.specs.Stacked.{list_of, stepped};
ghost use Rattle.frame_steps.specs.Sized.{AreOf};

use crate::done::bad;
use crate::gives::gives;
use code_form::Sort;
use frame_cells::Cells;
use frame_thread::tables::from;
use frame_thread::{Form, Host, Said, Standing, Thread};
use frames::Given;

/// What a method gives back.
#[inline(always)]
pub fn given<R: Copy + Drop>(cells: &Cells<R>, sort: Option<Sort>) -> Option<Given<R>>
    ensures { result ≡ result_of sort cells.now.own }
{
    match sort {
        None => Some(Given::Nothing),
        Some(Sort::Int) => Some(Given::Int(cells.int_at(0)?)),
        Some(Sort::Long) => Some(Given::Long(cells.long_at(0)?)),
        Some(Sort::Reference) => Some(Given::Reference(cells.reference_at(0)?)),
    }
}

/// `return` and its kin: a synchronized method gives its monitor back first.
#[inline(always)]
pub fn returns<M: Copy + Drop, R: Copy + Drop, N: Copy + Drop, V: Drop, H: Host<M, R, N, V>>(
    thread: &mut Thread<R, N>,
    host: &H,
    standing: Standing<R>,
    sort: Option<Sort>,
) -> Said<R>
    requires form { thread.old.form ≡ Some (Form.Running standing) }
    requires doing { thread.old.doing ≡ Runs }
    requires of { AreOf (H.setting host.now).program (list_of thread.old) }
    ensures step { stepped result thread.new
        ≡ returns (H.setting host.now) (result_of sort thread.old.own) standing.method standing.at thread.old.own standing.held
        thread.old.below }
    ensures of { AreOf (H.setting host.now).program (list_of thread.new) }
{
    let Some(value) = given(thread.cells(), sort) else {
        return bad(host, standing);
    };
    let Standing { method, at, held } = standing;
    match held {
        Some(key) => Said::Exit {
            from: from(host.program(), method, at),
            key,
        },
        None => {
            thread.pop();
            gives(thread, host, value)
        }
    }
}
