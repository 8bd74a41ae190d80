//! The operations of acts, by kinds.

ghost use Rattle.std.specs.Prelude.{◌≡◌, ◌<◌, ◌^◌, ◌==◌, IfOk, true};
ghost use Rattle.run_history.specs.declared.act.Op.TheVariants as op;
ghost use Rattle.history_file.specs.Kinds.{may_have};
ghost use Rattle.history_file.specs.Reading.{Gives, ◌gives◌, below, number_at, exactly, place_at, key_at, option_at, piece_at};
ghost use Rattle.history_file.specs.Reading.{stored_at, numbers_at, three_at, op_at, bare, access, monitor, of_two, stage_with};

use crate::fault::Stop;
use crate::fields::{NUMBERS, below, exactly, key, number, option, piece, place, test, value};
use crate::kind::Kind;
use ap_base::{Piece, Place, ThreadNo};
use graph_model::Value;
use run_history::{Op, PlainKey, Stage};

// The operation of a kind without fields.
fn bare(kind: Kind) -> Op
    ensures { result ≡ bare kind }
{
    match kind {
        Kind::Pause => Op::Pause,
        Kind::Begin => Op::Begin,
        Kind::End => Op::End,
        Kind::Closing => Op::Closing,
        _ => Op::Fenced,
    }
}

// The operation of a kind with a place and a value.
fn access_of(kind: Kind, place: Place, value: Value) -> Op
    ensures { result ≡ access kind (place, value) }
{
    match kind {
        Kind::Read => Op::Read { place, value },
        Kind::Stored => Op::Stored { place, value },
        _ => Op::Asked { place, value },
    }
}

// A place and a value.
#[tactic(auto, unfolding(crate::specs::Reading::stored_at))]
fn access(kind: Kind, is_slot: bool, bytes: &[u8]) -> Result<(Op, &[u8]), Stop>
    ensures { Gives (λ x. (x.0, x.1.now)) result (stored_at is_slot bytes.now gives access kind) }
{
    let (place, rest) = place(is_slot, bytes)?;
    let (value, rest) = value(rest)?;
    Ok((access_of(kind, place, value), rest))
}

// A number of 32 bits, and a number below a limit.
#[tactic(auto, unfolding(crate::specs::Reading::numbers_at))]
fn numbers(limit: u64, bytes: &[u8]) -> Result<(u32, u64, &[u8]), Stop>
    ensures small { IfOk result (λ x. x.1 < limit) }
    ensures read { Gives (λ x. ((x.0, x.1), x.2.now)) result (numbers_at limit bytes.now) }
{
    let (first, rest) = number(bytes)?;
    let (second, rest) = below(limit, rest)?;
    Ok((first, second, rest))
}

#[tactic(auto, unfolding(crate::specs::Reading::three_at))]
fn alloc(bytes: &[u8]) -> Result<(Op, &[u8]), Stop>
    ensures { Gives (λ x. (x.0, x.1.now)) result (three_at bytes.now gives (λ x. op.Alloc x.0 x.1.0 x.1.1)) }
{
    let (object, rest) = number(bytes)?;
    let (shape, length, rest) = numbers(NUMBERS, rest)?;
    let length = length as u32;
    Ok((
        Op::Alloc {
            object,
            shape,
            length,
        },
        rest,
    ))
}

// The operation of a kind with an object and a number.
fn of_two(kind: Kind, object: u32, number: u32) -> Op
    ensures { result ≡ of_two kind (object, number) }
{
    match kind {
        Kind::Length => Op::Length {
            object,
            length: number,
        },
        _ => Op::Throw {
            object,
            class: number,
        },
    }
}

fn two(kind: Kind, bytes: &[u8]) -> Result<(Op, &[u8]), Stop>
    ensures { Gives (λ x. (x.0, x.1.now)) result (numbers_at (2 ^ 32) bytes.now gives of_two kind) }
{
    let (object, number, rest) = numbers(NUMBERS, bytes)?;
    Ok((of_two(kind, object, number as u32), rest))
}

fn start(bytes: &[u8]) -> Result<(Op, &[u8]), Stop>
    ensures { Gives (λ x. (x.0, x.1.now)) result (numbers_at 64 bytes.now gives (λ x. op.Start x.0 x.1)) }
{
    let (object, child, rest) = numbers(64, bytes)?;
    match ThreadNo::new(child as u8) {
        Some(child) => Ok((Op::Start { object, child }, rest)),
        None => Err(Stop::At(bytes.len())),
    }
}

// The stage of a number below 3.
fn stage_with(n: u64) -> Stage
    ensures { result ≡ stage_with n }
{
    match n {
        0 => Stage::Begun,
        1 => Stage::Ready,
        _ => Stage::Done,
    }
}

fn init(bytes: &[u8]) -> Result<(Op, &[u8]), Stop>
    ensures { Gives (λ x. (x.0, x.1.now)) result (numbers_at 3 bytes.now gives (λ x. op.Init x.0 (stage_with x.1))) }
{
    let (class, is, rest) = numbers(3, bytes)?;
    let is = stage_with(is);
    Ok((Op::Init { class, is }, rest))
}

fn same(bytes: &[u8]) -> Result<(Op, &[u8]), Stop>
    ensures { Gives (λ x. (x.0, x.1.now)) result (below 2 bytes.now gives (λ n. op.Same (n == 1))) }
{
    let (n, rest) = below(2, bytes)?;
    Ok((Op::Same { yes: n == 1 }, rest))
}

// The operation of a kind with what has a monitor.
fn monitor_of(kind: Kind, key: PlainKey) -> Op
    ensures { result ≡ monitor kind key }
{
    match kind {
        Kind::Enter => Op::Enter { key },
        _ => Op::Exit { key },
    }
}

fn monitor(kind: Kind, bytes: &[u8]) -> Result<(Op, &[u8]), Stop>
    ensures { Gives (λ x. (x.0, x.1.now)) result (key_at bytes.now gives monitor kind) }
{
    let (key, rest) = key(bytes)?;
    Ok((monitor_of(kind, key), rest))
}

fn join(bytes: &[u8]) -> Result<(Op, &[u8]), Stop>
    ensures { Gives (λ x. (x.0, x.1.now)) result (number_at bytes.now gives op.Join) }
{
    let (object, rest) = number(bytes)?;
    Ok((Op::Join { object }, rest))
}

fn print(count: usize, bytes: &[u8]) -> Result<(Op, &[u8]), Stop>
    requires some { 0 < count }
    requires few { count < 4 }
    ensures { Gives (λ x. (x.0, x.1.now)) result (piece_at count bytes.now gives op.Print) }
{
    let (text, rest) = piece(count, bytes)?;
    match Piece::new(text) {
        Some(bytes) => Ok((Op::Print { bytes }, rest)),
        None => Err(Stop::At(bytes.len())),
    }
}

fn ended(bytes: &[u8]) -> Result<(Op, &[u8]), Stop>
    ensures { Gives (λ x. (x.0, x.1.now)) result (option_at bytes.now gives op.Ended) }
{
    let (uncaught, rest) = option(bytes)?;
    Ok((Op::Ended { uncaught }, rest))
}

fn joined(count: u64, bytes: &[u8]) -> Result<(Op, &[u8]), Stop>
    ensures { Gives (λ x. (x.0, x.1.now)) result (exactly count bytes.now gives (λ n. op.Joined)) }
{
    let rest = exactly(count, bytes)?;
    Ok((Op::Joined, rest))
}

fn guarded(is_slot: bool, bytes: &[u8]) -> Result<(Op, &[u8]), Stop>
    ensures { Gives (λ x. (x.0, x.1.now)) result (place_at is_slot bytes.now gives op.Guarded) }
{
    let (place, rest) = place(is_slot, bytes)?;
    Ok((Op::Guarded { place }, rest))
}

/// The fields of an act of this kind that has so many words.
#[tactic(auto, unfolding(crate::specs::Reading::op_at))]
pub(crate) fn op(kind: Kind, words: u32, bytes: &[u8]) -> Result<(Op, &[u8]), Stop>
    requires { may_have kind words ≡ true }
    ensures { Gives (λ x. (x.0, x.1.now)) result (op_at kind words bytes.now) }
{
    match kind {
        Kind::Pause | Kind::Begin | Kind::End | Kind::Closing | Kind::Fenced => {
            Ok((bare(kind), bytes))
        }
        Kind::Alloc => alloc(bytes),
        Kind::Read | Kind::Stored | Kind::Asked => access(kind, words == 7, bytes),
        Kind::Length | Kind::Throw => two(kind, bytes),
        Kind::Class => test(bytes),
        Kind::Same => same(bytes),
        Kind::Enter | Kind::Exit => monitor(kind, bytes),
        Kind::Start => start(bytes),
        Kind::Join => join(bytes),
        Kind::Init => init(bytes),
        Kind::Print => print((words - 3) as usize, bytes),
        Kind::Ended => ended(bytes),
        Kind::Joined => joined(u64::from(words - 3), bytes),
        Kind::Guarded => guarded(words == 5, bytes),
    }
}
