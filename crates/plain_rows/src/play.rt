//! Rows are followed on a plain run.

ghost use Rattle.std.specs.Prelude.{◌<◌, ◌^◌, IfOk, IsTrue, OnOk, length};
ghost use Rattle.class_set.specs.Facts.{facts_of};
ghost use Rattle.plain_rows.specs.Playing.{IsCalmOp, IsPlaying};

use crate::fixture::{linked, opening_of};
use ap_base::{Piece, Place, ThreadNo};
use class_set::ClassSet;
use graph_model::Value;
use plain_launch::{PlainRun, begin_plain};
use program_launch::find_main;
use run_history::{Act, Op, PlainKey, Stage};
use set_types::SetTypes;
use std::alloc::Global;
use std::test::Fail;

/// What an act did. Slots are those with index 0.
#[derive(Clone, Copy)]
pub enum Did {
    Init(u32, Stage),
    ReadStatic(u32, Value),
    ReadSlot(u32, Value),
    Stored(u32, Value),
    /// An object of a class, and how many slots it has.
    Alloc(u32, u32, u32),
    Class(u32, u32),
    Length(u32, u32),
    Same(bool),
    Enter(u32),
    Exit(u32),
    Print(&'static [u8]),
    Throw(u32, u32),
    Ended(Option<u32>),
}

/// What thread 0 does, and what differs from it in a value.
pub type Row = (Did, Did);

fn slot(object: u32) -> Place {
    Place::Slot { object, index: 0 }
}

fn printed(bytes: &[u8]) -> Result<Op, Fail> {
    Ok(Op::Print {
        bytes: Piece::new(bytes).ok_or("a piece")?,
    })
}

fn op_of(did: &Did) -> Result<Op, Fail> {
    Ok(match *did {
        Did::Init(class, is) => Op::Init { class, is },
        Did::ReadStatic(n, value) => Op::Read {
            place: Place::Static(n),
            value,
        },
        Did::ReadSlot(object, value) => Op::Read {
            place: slot(object),
            value,
        },
        Did::Stored(object, value) => Op::Stored {
            place: slot(object),
            value,
        },
        Did::Alloc(object, shape, length) => Op::Alloc {
            object,
            shape,
            length,
        },
        Did::Class(object, shape) => Op::Class {
            object: Some(object),
            shape: Some(shape),
        },
        Did::Length(object, length) => Op::Length { object, length },
        Did::Same(yes) => Op::Same { yes },
        Did::Enter(object) => Op::Enter {
            key: PlainKey::Object(object),
        },
        Did::Exit(object) => Op::Exit {
            key: PlainKey::Object(object),
        },
        Did::Print(bytes) => printed(bytes)?,
        Did::Throw(object, class) => Op::Throw { object, class },
        Did::Ended(uncaught) => Op::Ended { uncaught },
    })
}

// Whether an operation is none of persistence, and stores to slots of objects past the first alone.
fn is_calm(op: &Op) -> bool
    ensures { IsTrue result → IsCalmOp op.now }
{
    match *op {
        Op::Asked { .. } | Op::Joined | Op::Guarded { .. } | Op::Closing | Op::Fenced => false,
        Op::Stored { place, .. } => match place {
            Place::Static(_) => false,
            Place::Slot { object, .. } => object >= 1,
        },
        _ => true,
    }
}

/// Follows an act that isn't one of persistence: what the answer is.
fn follow(
    alloc: Global,
    types: &SetTypes,
    run: &mut PlainRun,
    thread: ThreadNo,
    op: Op,
) -> Result<bool, Fail>
    requires playing { IsPlaying (facts_of types.now) run.old }
    ensures playing { OnOk result (IsPlaying (facts_of types.now) run.new) }
{
    if !is_calm(&op) {
        return Err("an act that isn't one of persistence".into());
    }
    let act = Act { thread, at: 0, op };
    Ok(run.plain.follow(alloc, types, &run.host, &act)?)
}

// Whether an operation of thread 0 comes next alone: not by thread 1, nor with another value, nor a pause.
fn comes_next(
    alloc: Global,
    types: &SetTypes,
    run: &mut PlainRun,
    right: Op,
    wrong: Op,
) -> Result<bool, Fail>
    requires playing { IsPlaying (facts_of types.now) run.old }
    ensures playing { OnOk result (IsPlaying (facts_of types.now) run.new) }
{
    let main = ThreadNo::main();
    let other = ThreadNo::new(1).ok_or("1 is a thread")?;
    let by_other = follow(alloc, types, run, other, right)?;
    let with_other = follow(alloc, types, run, main, wrong)?;
    let pauses = follow(alloc, types, run, main, Op::Pause)?;
    let goes = follow(alloc, types, run, main, right)?;
    Ok(goes && !(by_other || with_other || pauses))
}

// Whether what a row says comes next alone.
fn row_comes_next(
    alloc: Global,
    types: &SetTypes,
    run: &mut PlainRun,
    row: &Row,
) -> Result<bool, Fail>
    requires playing { IsPlaying (facts_of types.now) run.old }
    ensures playing { OnOk result (IsPlaying (facts_of types.now) run.new) }
{
    let right = op_of(&row.0)?;
    let wrong = op_of(&row.1)?;
    comes_next(alloc, types, run, right, wrong)
}

// Follows what thread 0 does in a row.
fn follow_row(alloc: Global, types: &SetTypes, run: &mut PlainRun, row: &Row) -> Result<bool, Fail>
    requires playing { IsPlaying (facts_of types.now) run.old }
    ensures playing { OnOk result (IsPlaying (facts_of types.now) run.new) }
{
    let right = op_of(&row.0)?;
    follow(alloc, types, run, ThreadNo::main(), right)
}

// The first row that doesn't come next alone.
fn first_odd(
    alloc: Global,
    types: &SetTypes,
    run: &mut PlainRun,
    rows: &[Row],
) -> Result<Option<usize>, Fail>
    requires playing { IsPlaying (facts_of types.now) run.old }
{
    for (number, row) in rows.iter().enumerate() {
        if !row_comes_next(alloc, types, run, row)? {
            return Ok(Some(number));
        }
    }
    Ok(None)
}

// Follows what thread 0 does in these rows.
fn follow_rows(
    alloc: Global,
    types: &SetTypes,
    run: &mut PlainRun,
    rows: &[Row],
) -> Result<(), Fail>
    requires playing { IsPlaying (facts_of types.now) run.old }
    ensures playing { OnOk result (IsPlaying (facts_of types.now) run.new) }
{
    for row in rows {
        let _yes = follow_row(alloc, types, run, row)?;
    }
    Ok(())
}

// Whether an operation of persistence is followed now. The run isn't followed any further.
fn persists(alloc: Global, types: &SetTypes, run: &mut PlainRun, op: Op) -> Result<bool, Fail>
    requires playing { IsPlaying (facts_of types.now) run.old }
{
    let act = Act {
        thread: ThreadNo::main(),
        at: 0,
        op,
    };
    Ok(run.plain.follow(alloc, types, &run.host, &act)?)
}

/// A program: its classes, what its durable root is named, and the class and the ints of the node that it holds.
pub struct Program {
    pub listing: &'static [u8],
    pub root: &'static [u8],
    pub class: &'static [u8],
    pub values: &'static [i32],
}

fn begun(alloc: Global, set: &ClassSet, program: &Program) -> Result<PlainRun, Fail>
    requires short { length program.now.values.now < 2 ^ 31 }
    ensures playing { IfOk result (IsPlaying (facts_of set.now)) }
{
    let Ok(main) = find_main(set, b"Main") else {
        return Err("a main method".into());
    };
    let graph = opening_of(alloc, set, program.root, program.class, program.values)?;
    let Some(opening) = graph else {
        return Err("an opening graph".into());
    };
    let run = begin_plain(alloc, set, &main, &opening)?;
    Ok(run)
}

/// The first row, by its number, whose operation isn't followed, or is followed otherwise too.
pub fn odd_row(alloc: Global, program: &Program, rows: &[Row]) -> Result<Option<usize>, Fail>
    requires short { length program.now.values.now < 2 ^ 31 }
{
    let set = linked(alloc, program.listing)?;
    let types = SetTypes::of(&set);
    let mut run = begun(alloc, &set, program)?;
    first_odd(alloc, &types, &mut run, rows)
}

/// Whether an operation of persistence is followed behind these rows.
pub fn persists_behind(alloc: Global, program: &Program, rows: &[Row], op: Op) -> Result<bool, Fail>
    requires short { length program.now.values.now < 2 ^ 31 }
{
    let set = linked(alloc, program.listing)?;
    let types = SetTypes::of(&set);
    let mut run = begun(alloc, &set, program)?;
    follow_rows(alloc, &types, &mut run, rows)?;
    persists(alloc, &types, &mut run, op)
}
