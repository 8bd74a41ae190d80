//! The words of a line.

ghost use Rattle.std.specs.Prelude.{◌≡◌, ◌++◌, IfOk, OnOk};
ghost use Rattle.listing_lines.specs.Words.{next, is_between, ended, words};

use ap_base::Bytes;
use std::alloc::{AllocError, Global};

/// What the bytes before one make of it.
#[derive(Clone, Copy)]
pub(crate) enum Mode {
    /// It may begin a word.
    Between,
    /// It is a word's, unless it is a space.
    Word,
    /// It is a text's, up to the closing quotation mark.
    Text,
    /// It stands behind a backslash in a text.
    Escape,
}

fn next(mode: Mode, byte: u8) -> Mode
    ensures { result ≡ next mode byte }
{
    match mode {
        Mode::Between => match byte {
            b' ' => Mode::Between,
            b'"' => Mode::Text,
            _ => Mode::Word,
        },
        Mode::Word => match byte {
            b' ' => Mode::Between,
            _ => Mode::Word,
        },
        Mode::Text => match byte {
            b'"' => Mode::Word,
            b'\\' => Mode::Escape,
            _ => Mode::Text,
        },
        Mode::Escape => Mode::Text,
    }
}

fn is_between(mode: Mode) -> bool
    ensures { result ≡ is_between mode }
{
    matches!(mode, Mode::Between)
}

/// Adds a word, unless it has no byte.
fn end_word(alloc: Global, words: &mut Vec<Bytes>, word: &[u8]) -> Result<(), AllocError>
    ensures { OnOk result (words.new.items ≡ words.old.items ++ ended word.now) }
{
    match word {
        [] => {}
        word => words.push(Bytes::copy(alloc, word)?)?,
    }
    Ok(())
}

/// The words of a line, in order.
#[tactic(auto, unfolding(crate::specs::Words::words_from))]
pub(crate) fn words(alloc: Global, line: &[u8]) -> Result<Vec<Bytes>, AllocError>
    ensures { IfOk result (λ v. v.items ≡ words line.now) }
{
    let mut words = Vec::new(alloc);
    let mut word = Vec::new(alloc);
    let mut mode = Mode::Between;
    for b in line {
        mode = next(mode, *b);
        if is_between(mode) {
            end_word(alloc, &mut words, &word)?;
            word.clear();
        } else {
            word.push(*b)?;
        }
    }
    end_word(alloc, &mut words, &word)?;
    Ok(words)
}
