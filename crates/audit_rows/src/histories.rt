// Histories of rows, and their verdicts.
ghost use Rattle.std.specs.Prelude.{◌≡◌, OnOk};

use ap_base::{Piece, ThreadNo};
use audit_runs::{Verdict, audit_run};
use graph_model::Graph;
use program_launch::find_main;
use run_history::{Act, Acts, Op};
use set_fixture::{linked, null_opening};
use std::alloc::Global;
use std::test::Fail;

/// A history of thread 0: what it did, then maybe that an object became durable, and what it did behind that.
#[derive(Clone, Copy)]
pub struct History<'a> {
    pub first: &'a [Op],
    pub joined: Option<u32>,
    pub then: &'a [Op],
}

pub fn print(bytes: &[u8]) -> Result<Op, Fail> {
    Ok(Op::Print {
        bytes: Piece::new(bytes).ok_or("a piece")?,
    })
}

fn did(op: Op) -> Act {
    Act {
        thread: ThreadNo::main(),
        at: 0,
        op,
    }
}

fn push_all(acts: &mut Acts, ops: &[Op]) -> Result<(), Fail>
    ensures { OnOk result (acts.new.room ≡ acts.old.room) }
{
    for op in ops {
        if acts.push(did(*op)).is_err() {
            return Err("room for acts".into());
        }
    }
    Ok(())
}

fn acts_of(alloc: Global, history: History) -> Result<Acts, Fail> {
    let mut acts = Acts::new(alloc);
    acts.reserve(100, 1)?;
    push_all(&mut acts, history.first)?;
    if let Some(object) = history.joined {
        acts.name(object);
        if acts.push(did(Op::Joined)).is_err() {
            return Err("room for acts".into());
        }
    }
    push_all(&mut acts, history.then)?;
    Ok(acts)
}

/// The verdict of a history of the program with class Main, from a blank image on.
pub fn verdict(
    alloc: Global,
    listing: &[u8],
    history: History,
    keep: u64,
    output: &[u8],
    after: &Graph,
) -> Result<Verdict, Fail> {
    let set = linked(alloc, listing)?;
    let Ok(main) = find_main(&set, b"Main") else {
        return Err("a main method".into());
    };
    let Some(opening) = null_opening(alloc, &set)? else {
        return Err("few literals".into());
    };
    let acts = acts_of(alloc, history)?;
    Ok(audit_run(
        alloc, &set, main.class, &opening, &acts, keep, output, after,
    )?)
}
