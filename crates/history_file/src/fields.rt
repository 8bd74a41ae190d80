//! The fields of acts: words, and what they say.

ghost use Rattle.std.specs.Prelude.{◌≡◌, ◌<◌, ◌^◌, ◌≤◌, ◌+◌, ◌*◌, IfOk, length};
ghost use Rattle.run_history.specs.declared.act.Op.TheVariants as op;
ghost use Rattle.ap_base.specs.Pieces.{IsPiece};
ghost use Rattle.history_file.specs.Reading.{Gives, ◌gives◌, word_at, below, number_at, exactly, place_at, tagged_value};
ghost use Rattle.history_file.specs.Reading.{value_at};
ghost use Rattle.history_file.specs.Reading.{key_at, option_at, test_at, goes_with, whole_at, text_at, are_zeros};
ghost use Rattle.history_file.specs.Reading.{takes_words, piece_at};
ghost use Rattle.history_file.specs.Reading.{option_with};

use crate::fault::Stop;
use ap_base::Place;
use graph_model::Value;
use run_history::{Op, PlainKey};

/// How many numbers of 32 bits there are.
pub(crate) const NUMBERS: u64 = 1 << 32;

/// A word, the lowest byte first.
#[tactic(auto, unfolding(crate::specs::Reading::word_at))]
pub(crate) fn word(bytes: &[u8]) -> Result<(u64, &[u8]), Stop>
    ensures { Gives (λ x. (x.0, x.1.now)) result (word_at bytes.now) }
{
    if bytes.len() < 8 {
        return Err(Stop::At(bytes.len()));
    }
    let (front, rest) = bytes.split_at(8);
    let word = u64::from_le_bytes([
        front[0], front[1], front[2], front[3], front[4], front[5], front[6], front[7],
    ]);
    Ok((word, rest))
}

/// A word below a limit.
pub(crate) fn below(limit: u64, bytes: &[u8]) -> Result<(u64, &[u8]), Stop>
    ensures small { IfOk result (λ x. x.0 < limit) }
    ensures read { Gives (λ x. (x.0, x.1.now)) result (below limit bytes.now) }
{
    let (number, rest) = word(bytes)?;
    if number >= limit {
        return Err(Stop::At(bytes.len()));
    }
    Ok((number, rest))
}

/// A number of 32 bits.
#[tactic(auto, unfolding(crate::specs::Reading::number_at))]
pub(crate) fn number(bytes: &[u8]) -> Result<(u32, &[u8]), Stop>
    ensures { Gives (λ x. (x.0, x.1.now)) result (number_at bytes.now) }
{
    let (number, rest) = below(NUMBERS, bytes)?;
    Ok((number as u32, rest))
}

/// This word and no other; what stands behind it.
#[tactic(auto, unfolding(crate::specs::Reading::exactly))]
pub(crate) fn exactly(expected: u64, bytes: &[u8]) -> Result<&[u8], Stop>
    ensures { Gives (λ x. (expected, x.now)) result (exactly expected bytes.now) }
{
    let (number, rest) = word(bytes)?;
    if number != expected {
        return Err(Stop::At(bytes.len()));
    }
    Ok(rest)
}

/// A place: a slot, or a static field.
#[tactic(auto, unfolding(crate::specs::Reading::place_at))]
pub(crate) fn place(is_slot: bool, bytes: &[u8]) -> Result<(Place, &[u8]), Stop>
    ensures { Gives (λ x. (x.0, x.1.now)) result (place_at is_slot bytes.now) }
{
    if is_slot {
        let rest = exactly(1, bytes)?;
        let (object, rest) = number(rest)?;
        let (index, rest) = number(rest)?;
        Ok((Place::Slot { object, index }, rest))
    } else {
        let rest = exactly(0, bytes)?;
        let (n, rest) = number(rest)?;
        Ok((Place::Static(n), rest))
    }
}

// What follows the tag of a value.
#[tactic(auto, unfolding(crate::specs::Reading::tagged_value))]
fn tagged_value(tag: u64, bytes: &[u8]) -> Result<(Value, &[u8]), Stop>
    ensures { Gives (λ x. (x.0, x.1.now)) result (tagged_value tag bytes.now) }
{
    match tag {
        0 => {
            let (bits, rest) = number(bytes)?;
            Ok((Value::Int(bits.cast_signed()), rest))
        }
        1 => {
            let (bits, rest) = word(bytes)?;
            Ok((Value::Long(bits.cast_signed()), rest))
        }
        2 => {
            let rest = exactly(0, bytes)?;
            Ok((Value::Null, rest))
        }
        _ => {
            let (object, rest) = number(bytes)?;
            Ok((Value::Obj(object), rest))
        }
    }
}

/// A value.
#[tactic(auto, unfolding(crate::specs::Reading::value_at))]
pub(crate) fn value(bytes: &[u8]) -> Result<(Value, &[u8]), Stop>
    ensures { Gives (λ x. (x.0, x.1.now)) result (value_at bytes.now) }
{
    let (tag, rest) = below(4, bytes)?;
    tagged_value(tag, rest)
}

/// What has a monitor.
#[tactic(auto, unfolding(crate::specs::Reading::key_at))]
pub(crate) fn key(bytes: &[u8]) -> Result<(PlainKey, &[u8]), Stop>
    ensures { Gives (λ x. (x.0, x.1.now)) result (key_at bytes.now) }
{
    let (tag, rest) = below(2, bytes)?;
    let (n, rest) = number(rest)?;
    let key = if tag == 0 {
        PlainKey::Object(n)
    } else {
        PlainKey::Class(n)
    };
    Ok((key, rest))
}

// A number that is told as one more, if it is there.
fn option_with(n: u64) -> Option<u32>
    requires { n < 2 ^ 32 + 1 }
    ensures { result ≡ option_with n }
{
    if n == 0 { None } else { Some((n - 1) as u32) }
}

/// A number of 32 bits, or nothing.
#[tactic(auto, unfolding(crate::specs::Reading::option_at))]
pub(crate) fn option(bytes: &[u8]) -> Result<(Option<u32>, &[u8]), Stop>
    ensures { Gives (λ x. (x.0, x.1.now)) result (option_at bytes.now) }
{
    let (n, rest) = below(NUMBERS + 1, bytes)?;
    Ok((option_with(n), rest))
}

// Whether a second number goes with a first one.
fn goes_with(first: u64, second: u64) -> bool
    ensures { result ≡ goes_with first second }
{
    if first == 0 {
        second == 0
    } else {
        0 < second && second < NUMBERS + 1
    }
}

/// A test of an object's class.
#[tactic(auto, unfolding(crate::specs::Reading::test_at))]
pub(crate) fn test(bytes: &[u8]) -> Result<(Op, &[u8]), Stop>
    ensures { Gives (λ x. (x.0, x.1.now)) result (test_at bytes.now gives (λ x. op.Class x.0 x.1)) }
{
    let (first, middle) = below(NUMBERS + 1, bytes)?;
    let (second, rest) = word(middle)?;
    if !goes_with(first, second) {
        return Err(Stop::At(middle.len()));
    }
    let object = option_with(first);
    let shape = option_with(second);
    Ok((Op::Class { object, shape }, rest))
}

/// So many whole words.
#[tactic(auto, unfolding(crate::specs::Reading::whole_at))]
fn whole(count: usize, bytes: &[u8]) -> Result<(&[u8], &[u8]), Stop>
    requires { count < 2 ^ 32 }
    ensures length { IfOk result (λ x. length x.0.now ≡ 8 * count) }
    ensures read { Gives (λ x. (x.0.now, x.1.now)) result (whole_at count bytes.now) }
{
    if bytes.len() < 8 * count {
        return Err(Stop::At(bytes.len() % 8));
    }
    Ok(bytes.split_at(8 * count))
}

// Whether so many bytes take so many words.
fn takes_words(count: usize, n: u64) -> bool
    ensures { result ≡ takes_words count n }
{
    n < 25 && n.div_ceil(8) == count as u64
}

fn are_zeros(bytes: &[u8]) -> bool
    ensures { result ≡ are_zeros bytes.now }
{
    bytes.iter().all(|byte| *byte == 0)
}

// So many bytes, and zeros behind them up to the end of so many words.
#[tactic(auto, unfolding(crate::specs::Reading::text_at))]
fn text(count: usize, n: usize, bytes: &[u8]) -> Result<(&[u8], &[u8]), Stop>
    requires few { count < 2 ^ 32 }
    requires whole { n ≤ 8 * count }
    ensures length { IfOk result (λ x. length x.0.now ≡ n) }
    ensures read { Gives (λ x. (x.0.now, x.1.now)) result (text_at count n bytes.now) }
{
    let (raw, rest) = whole(count, bytes)?;
    let (text, filling) = raw.split_at(n);
    if !are_zeros(filling) {
        return Err(Stop::At(rest.len() + 8));
    }
    Ok((text, rest))
}

/// A piece of 1 to 24 bytes in so many words, with zeros behind it.
#[tactic(auto, unfolding(crate::specs::Reading::piece_at))]
pub(crate) fn piece(count: usize, bytes: &[u8]) -> Result<(&[u8], &[u8]), Stop>
    requires some { 0 < count }
    requires few { count < 4 }
    ensures piece { IfOk result (λ x. IsPiece x.0.now) }
    ensures read { Gives (λ x. (x.0.now, x.1.now)) result (piece_at count bytes.now) }
{
    let (n, rest) = word(bytes)?;
    if !takes_words(count, n) {
        return Err(Stop::At(bytes.len()));
    }
    text(count, n as usize, rest)
}
