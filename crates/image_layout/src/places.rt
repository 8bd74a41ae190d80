// The words of the root slots, the directory and the logs.
ghost use Rattle.std.specs.Prelude.{◌≡◌, ◌+◌, ◌<◌, ◌≤◌, ◌↔◌, IsNone, IfSome};
ghost use Rattle.image_layout.specs.Places.{root_slots, directory_words, log_entries, slot_line, slot_word, directory_line};
ghost use Rattle.image_layout.specs.Places.{directory_word, log_head_line, log_entry_line, log_entry_word};

use crate::{
    DIRECTORY_WORDS, FIRST_DIRECTORY_LINE, FIRST_LOG_LINE, FIRST_SLOT_LINE, LOG_ENTRIES, LOG_LINES,
    ROOT_SLOTS,
};
use ap_base::{Spot, ThreadNo};

/// The word of a root slot. `None` exactly from 256 on.
pub fn slot_spot(root: u32) -> Option<Spot>
    ensures none { IsNone result ↔ (root_slots ≤ root) }
    ensures line { IfSome result (λ spot. spot.line ≡ slot_line root) }
    ensures word { IfSome result (λ spot. spot.word ≡ slot_word root) }
{
    if root >= ROOT_SLOTS {
        return None;
    }
    Some(Spot {
        line: FIRST_SLOT_LINE + root / 8,
        word: (root % 8) as u8,
    })
}

/// The word of the directory's word of this number. `None` exactly from 32,768 on.
pub fn directory_spot(word: u32) -> Option<Spot>
    ensures none { IsNone result ↔ (directory_words ≤ word) }
    ensures line { IfSome result (λ spot. spot.line ≡ directory_line word) }
    ensures word { IfSome result (λ spot. spot.word ≡ directory_word word) }
{
    if word >= DIRECTORY_WORDS {
        return None;
    }
    Some(Spot {
        line: FIRST_DIRECTORY_LINE + word / 8,
        word: (word % 8) as u8,
    })
}

/// The word that counts the entries of a thread's log.
pub fn log_head(thread: ThreadNo) -> Spot
    ensures line { result.line ≡ log_head_line thread }
    ensures word { result.word ≡ 0 }
{
    Spot {
        line: FIRST_LOG_LINE + LOG_LINES * u32::from(thread.number()),
        word: 0,
    }
}

/// The first of the two words of a log's entry, whose second is the next word of that line. `None` exactly from
/// 1,024 on.
pub fn log_entry(thread: ThreadNo, n: u32) -> Option<Spot>
    ensures none { IsNone result ↔ (log_entries ≤ n) }
    ensures line { IfSome result (λ spot. spot.line ≡ log_entry_line thread n) }
    ensures word { IfSome result (λ spot. spot.word ≡ log_entry_word n) }
    ensures one_line { IfSome result (λ spot. spot.word + 1 < 8) }
{
    if n >= LOG_ENTRIES {
        return None;
    }
    Some(Spot {
        line: log_head(thread).line + 1 + n / 4,
        word: 2 * (n % 4) as u8,
    })
}
