// The table of guards: by word of the image 0, or 1 + the thread whose open region has guarded it.
ghost use Rattle.std.specs.Prelude.{◌≡◌, ◌⊎◌, ◌<◌, ◌+◌, length, IfSome, IsNone};
ghost use Rattle.region_logs.specs.Table.{word_of, SetsOwners};

use ap_base::{Spot, ThreadNo};
use region_log::Entry;

/// The number of a word in the table.
pub(crate) fn number(spot: Spot) -> usize
    ensures { result ≡ word_of spot }
{
    8 * spot.line as usize + spot.word as usize
}

/// The thread that owns a word by what the table has for it.
pub(crate) fn thread_of(owner: u8) -> Option<ThreadNo>
    ensures some { IfSome result (λ thread. owner ≡ thread + 1) }
    ensures none { IsNone result → (owner ≡ 0) ⊎ (64 < owner) }
{
    match owner {
        0 => None,
        _ => ThreadNo::new(owner - 1),
    }
}

/// Gives the words of entries to an owner, as far as the table has them.
pub(crate) fn set_owners(table: &mut Vec<u8>, entries: &[Entry], owner: u8)
    ensures { SetsOwners entries.now (length entries.now) owner table.old.items table.new.items }
{
    for entry in entries {
        let word = number(entry.spot);
        if word < table.len() {
            table[word] = owner;
        }
    }
}
