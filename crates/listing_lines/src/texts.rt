//! Texts in quotes.

ghost use Rattle.std.specs.Prelude.{◌≡◌, [], false, IfOk};
ghost use Rattle.std.specs.Option.{option_map};
ghost use Rattle.listing_lines.specs.Texts.{escaped, begins_text, text_from, text};

use ap_base::Bytes;
use std::alloc::{AllocError, Global};

/// What a byte behind a backslash stands for.
fn escaped(byte: u8) -> Option<u8>
    ensures { result ≡ escaped byte }
{
    match byte {
        b'"' => Some(b'"'),
        b'\\' => Some(b'\\'),
        b'n' => Some(b'\n'),
        _ => None,
    }
}

/// Whether a word is a text in quotes, or the beginning of one.
pub(crate) fn begins_text(word: &[u8]) -> bool
    ensures { result ≡ begins_text word.now }
{
    match word {
        [first, ..] => *first == b'"',
        [] => false,
    }
}

/// The text that a word spells behind its opening quotation mark.
#[tactic(auto, unfolding(crate::specs::Texts::text_from))]
fn text_behind(alloc: Global, bytes: &[u8]) -> Result<Option<Bytes>, AllocError>
    ensures { IfOk result (λ found. found ≡ text_from false [] bytes.now) }
{
    let mut text = Vec::new(alloc);
    let mut behind = false;
    let mut rest = bytes;
    'bytes: loop {
        match rest {
            [] => return Ok(None),
            [b, after @ ..] => {
                if behind {
                    let Some(byte) = escaped(*b) else {
                        return Ok(None);
                    };
                    text.push(byte)?;
                    behind = false;
                } else if *b == b'"' {
                    return Ok(if after.is_empty() {
                        Some(Bytes::from_vec(text))
                    } else {
                        None
                    });
                } else if *b == b'\\' {
                    behind = true;
                } else {
                    text.push(*b)?;
                }
                rest = after;
            }
        }
    }
}

/// The text that a word spells with its quotation marks, `None` exactly where it spells none.
pub(crate) fn text(alloc: Global, word: &[u8]) -> Result<Option<Bytes>, AllocError>
    ensures { IfOk result (λ found. found ≡ text word.now) }
{
    match word {
        [b'"', rest @ ..] => text_behind(alloc, rest),
        _ => Ok(None),
    }
}
