// Numbers among words.
ghost use Rattle.std.specs.Prelude.{◌≡◌, ◌<◌, ◌≤◌, ◌^◌, length, option_map, IfSome};
ghost use Rattle.command_words.specs.Numbers as spec;

/// Which numbers an option takes, and which one stands where it isn't given.
#[derive(Clone, Copy)]
pub(crate) struct Range {
    pub least: u32,
    pub most: u32,
    pub default: u32,
}

#[tactic(auto, using(crate::proofs::Digits::front, crate::proofs::Digits::next_fits, crate::proofs::Digits::small), unfolding(crate::specs::Numbers::digits_from))]
fn digits_from(digits: &[u8]) -> Option<u64>
    requires short { length digits.now ≤ 12 }
    ensures exact { result ≡ spec.digits_from 0 digits.now }
{
    let mut number = 0u64;
    for digit in digits {
        if !digit.is_ascii_digit() {
            return None;
        }
        number = number * 10 + u64::from(*digit - b'0');
    }
    Some(number)
}

// The number that 1 to 12 digits spell.
fn number_of(text: &str) -> Option<u64>
    ensures exact { result ≡ spec.number_of text.now }
{
    let digits = text.as_bytes();
    if digits.is_empty() || digits.len() > 12 {
        return None;
    }
    digits_from(digits)
}

/// The number that a text spells, where it is one of these.
pub(crate) fn number_in(least: u32, most: u32, text: &str) -> Option<u32>
    ensures exact { result ≡ spec.number_in least most text.now }
    ensures bound { IfSome result (λ number. number ≤ most) }
{
    match number_of(text) {
        Some(number) if u64::from(least) <= number && number <= u64::from(most) => Some(
            number as u32,
        ),
        _ => None,
    }
}

/// The number that an option gives, or the one that stands where it isn't given.
pub(crate) fn number_or(range: Range, text: Option<&str>) -> Option<u32>
    requires fits { range.default ≤ range.most }
    ensures exact { result ≡ spec.number_or range (option_map (λ s. s.now) text.entry) }
    ensures bound { IfSome result (λ number. number ≤ range.most) }
{
    match text {
        None => Some(range.default),
        Some(text) => number_in(range.least, range.most, text),
    }
}
