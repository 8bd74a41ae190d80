// The words of the logs.
ghost use Rattle.std.specs.Prelude.{◌≡◌, ◌+◌, ◌<◌};
ghost use Rattle.image_layout.specs.Places.{logs, log_entries, log_head_line, log_entry_line, log_entry_word};

use ap_base::{Spot, ThreadNo};
use image_layout::{log_entry, log_head};

/// The word that counts the entries of a log.
pub(crate) fn head_spot(thread: u8) -> Spot
    requires { thread < logs }
    ensures line { result.line ≡ log_head_line thread }
    ensures word { result.word ≡ 0 }
{
    log_head(ThreadNo::new(thread).unwrap())
}

/// The first of the two words of a log's entry.
pub(crate) fn entry_spot(thread: u8, n: u32) -> Spot
    requires thread { thread < logs }
    requires entry { n < log_entries }
    ensures line { result.line ≡ log_entry_line thread n }
    ensures word { result.word ≡ log_entry_word n }
    ensures one_line { result.word + 1 < 8 }
{
    log_entry(ThreadNo::new(thread).unwrap(), n).unwrap()
}
