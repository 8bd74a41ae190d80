// Numbers of a script: sums of decimals, of hexadecimals and of numbers with names, or of what they leave by others.
use std::alloc::{AllocError, Global};

/// A number with a name: `n` of a row that is repeated, or a mark.
#[derive(Drop)]
pub(crate) struct Number {
    name: String,
    value: u64,
}

/// Gives a name a number.
pub(crate) fn set_number(
    alloc: Global,
    numbers: &mut Vec<Number>,
    name: &str,
    value: u64,
) -> Result<(), AllocError> {
    let name = String::from_str(alloc, name)?;
    numbers.push(Number { name, value })?;
    Ok(())
}

/// The number that a name was given last.
fn named(numbers: &[Number], name: &str) -> Option<u64> {
    let mut value = None;
    for number in numbers {
        if number.name.as_str() == name {
            value = Some(number.value);
        }
    }
    value
}

fn plain(numbers: &[Number], text: &str) -> Option<u64> {
    if let Some(digits) = text.strip_prefix("0x") {
        return u64::from_str_radix(digits, 16).ok();
    }
    match text.parse::<u64>() {
        Ok(value) => Some(value),
        Err(_) => named(numbers, text),
    }
}

/// A number, or how often another one goes into it.
fn quotient(numbers: &[Number], text: &str) -> Option<u64> {
    match text.split_once('/') {
        Some((front, by)) => plain(numbers, front)?.checked_div(plain(numbers, by)?),
        None => plain(numbers, text),
    }
}

/// That, or what is left of it by another one.
fn term(numbers: &[Number], text: &str) -> Option<u64> {
    match text.split_once('%') {
        Some((front, by)) => quotient(numbers, front)?.checked_rem(plain(numbers, by)?),
        None => quotient(numbers, text),
    }
}

/// The number that a word of a script is.
pub(crate) fn number_of(numbers: &[Number], text: &str) -> Option<u64> {
    let mut sum: u64 = 0;
    for part in text.split('+') {
        sum = sum.saturating_add(term(numbers, part)?);
    }
    Some(sum)
}

/// The same, and this one where there is no word.
pub(crate) fn number_or(numbers: &[Number], text: &str, otherwise: u64) -> Option<u64> {
    if text.is_empty() {
        Some(otherwise)
    } else {
        number_of(numbers, text)
    }
}
