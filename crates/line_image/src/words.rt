// Lines of words.
ghost use Rattle.std.specs.Prelude.{◌≡◌, ◌<◌, ◌+◌, ◌*◌, ◌/◌, ℕ, [], IfOk, length, get_or, slice_index, All};

use std::alloc::{AllocError, Global};

/// The lines of eight words.
pub(crate) fn lines_of(alloc: Global, words: &[u64]) -> Result<Vec<[u64; 8]>, AllocError>
    ensures size { IfOk result (λ lines. length lines.items ≡ length words.now / 8) }
    ensures eights { IfOk result (λ lines. All (λ line. length line ≡ 8) lines.items) }
    ensures words { IfOk result (λ lines. (l w : ℕ) → l < length words.now / 8 → w < 8
        → slice_index (get_or lines.items l []) w ≡ slice_index words.now (8 * l + w)) }
{
    let mut lines = Vec::with_capacity(alloc, words.len() / 8)?;
    for line in 0..words.len() / 8 {
        lines.push(line_at(words, line))?;
    }
    Ok(lines)
}

fn line_at(words: &[u64], line: usize) -> [u64; 8]
    requires { line < length words.now / 8 }
    ensures words { (w : ℕ) → w < 8 → slice_index result w ≡ slice_index words.now (8 * line + w) }
{
    let mut found = [0; 8];
    found.copy_from_slice(&words[8 * line..8 * line + 8]);
    found
}
