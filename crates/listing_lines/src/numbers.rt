//! Numbers in decimal with an optional minus.

ghost use Rattle.std.specs.Prelude.{◌≡◌, ◌+◌, ◌-◌, ◌^◌, ◌<◌, ◌≤◌, ◌≤ℤ◌, pos, ◌-ℤ◌, IfSome};
ghost use Rattle.std.specs.Option.{option_and_then};
ghost use Rattle.listing_lines.specs.Numbers.{is_digit, decimal, at_most, within, integer, number};

/// How far below 0 a number may be.
const DEEPEST: u64 = 0x8000_0000_0000_0000;

/// The number that at least one digit spells, where it is at most [`DEEPEST`].
#[tactic(auto, using(crate::proofs::Steps::front, crate::proofs::Steps::too_much), unfolding(crate::specs::Numbers::decimal_from))]
fn decimal(digits: &[u8]) -> Option<u64>
    ensures value { result ≡ option_and_then (at_most DEEPEST) (decimal digits.now) }
    ensures small { IfSome result (λ n. n ≤ DEEPEST) }
{
    if digits.is_empty() {
        return None;
    }
    let mut number: u64 = 0;
    for b in digits {
        if !b.is_ascii_digit() || number > DEEPEST / 10 {
            return None;
        }
        number = 10 * number + u64::from(*b - b'0');
        if number > DEEPEST {
            return None;
        }
    }
    Some(number)
}

/// The number that a word spells, where it has 64 bits.
fn integer(word: &[u8]) -> Option<i64>
    ensures { result ≡ option_and_then (within i64.MIN i64.MAX) (integer word.now) }
{
    match word {
        [b'-', digits @ ..] => match decimal(digits)? {
            0 => Some(0),
            number => Some(-((number - 1) as i64) - 1),
        },
        digits => {
            let number = decimal(digits)?;
            if number == DEEPEST {
                None
            } else {
                Some(number as i64)
            }
        }
    }
}

/// The number that a word spells in decimal with an optional minus, `None` exactly where it spells none from `low` to `high`.
pub(crate) fn number(low: i64, high: i64, word: &[u8]) -> Option<i64>
    ensures value { result ≡ number low high word.now }
    ensures within { IfSome result (λ z. (low ≤ℤ z) × (z ≤ℤ high)) }
{
    let number = integer(word)?;
    if low <= number && number <= high {
        Some(number)
    } else {
        None
    }
}
