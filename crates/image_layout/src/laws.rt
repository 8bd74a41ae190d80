// Laws of the layout: its parts lie apart, and fill the lines before the objects.
ghost use Rattle.std.specs.Prelude.{◌≡◌, ◌≢◌, ◌+◌, ◌*◌, ◌^◌, ◌<◌, ◌≤◌, ℕ, codes};
ghost use Rattle.std.specs.Int.{from_le_bytes, w64};
ghost use Rattle.image_layout.specs.Places.{root_slots, directory_words, logs, log_entries, first_object_line, min_lines};
ghost use Rattle.image_layout.specs.Places.{max_lines, magic, version, slot_line, directory_line, log_head_line, lines_of};
ghost use Rattle.image_layout.specs.Places.{object_line, head_of};
ghost use Rattle.image_layout.specs.Parts.{Part, IsPart, spot_of, IsInRow, IsInItsLog, object_spot};

use crate::{
    DIRECTORY_WORDS, FIRST_DIRECTORY_LINE, FIRST_LOG_LINE, FIRST_OBJECT_LINE, FIRST_SLOT_LINE,
    LOG_ENTRIES, LOG_LINES, LOGS, MAGIC, MAX_LINES, MIN_LINES, ROOT_SLOTS, VERSION,
};

/// The public numbers are those of the table, and the magic word is that of the bytes AUTOPERS.
pub fn table_numbers()
    ensures magic { MAGIC ≡ magic }
    ensures magic_bytes { magic ≡ from_le_bytes w64 (codes "AUTOPERS") }
    ensures version { VERSION ≡ version }
    ensures min_lines { MIN_LINES ≡ min_lines }
    ensures max_lines { MAX_LINES ≡ max_lines }
    ensures slots { ROOT_SLOTS ≡ root_slots }
    ensures slot_line { FIRST_SLOT_LINE ≡ slot_line 0 }
    ensures directory { DIRECTORY_WORDS ≡ directory_words }
    ensures directory_line { FIRST_DIRECTORY_LINE ≡ directory_line 0 }
    ensures logs { LOGS ≡ logs }
    ensures log_line { FIRST_LOG_LINE ≡ log_head_line 0 }
    ensures log_lines { FIRST_LOG_LINE + LOG_LINES ≡ log_head_line 1 }
    ensures log_entries { LOG_ENTRIES ≡ log_entries }
    ensures objects { FIRST_OBJECT_LINE ≡ first_object_line }
    ensures behind_logs { first_object_line ≡ log_head_line logs }
    ensures in_each_image { first_object_line < min_lines }
{}

/// No two parts have one word.
pub fn parts_apart()
    ensures { (part other : Part) → IsPart part → IsPart other → spot_of part ≡ spot_of other → part ≡ other }
{}

/// Each part lies in the lines of its row of the table, one of a log in that log's lines, at one of the eight words of
/// a line, before the objects.
pub fn parts_in_their_rows()
    ensures row { (part : Part) → IsPart part → IsInRow part (spot_of part).0 }
    ensures own_log { (part : Part) → IsPart part → IsInItsLog part (spot_of part).0 }
    ensures word { (part : Part) → IsPart part → (spot_of part).1 < 8 }
    ensures before_objects { (part : Part) → IsPart part → (spot_of part).0 < first_object_line }
{}

/// Each word of the lines before the objects is a part's.
pub fn parts_fill_the_lines()
    ensures { (line word : ℕ) → line < first_object_line → word < 8
        → (part : Part) × (IsPart part × (spot_of part ≡ (line, word))) }
{}

/// An object that begins behind the parts has no word of theirs.
pub fn objects_behind_parts()
    ensures { (part : Part) (line index : ℕ) → IsPart part → first_object_line ≤ line
        → object_spot line index ≢ spot_of part }
{}

/// The slots of an object have different words, and none is its head's, which is the first of its line.
pub fn object_words_apart()
    ensures slots { (line i j : ℕ) → object_spot line i ≡ object_spot line j → i ≡ j }
    ensures head { (line i : ℕ) → object_spot line i ≢ (line, 0) }
{}

/// The words of an object's slots lie in its lines, so that objects whose lines are apart have no word in common.
pub fn object_words_within()
    ensures from { (line i : ℕ) → line ≤ object_line line i }
    ensures below { (line length i : ℕ) → i < length → object_line line i < line + lines_of length }
    ensures apart { (line length i other j : ℕ) → i < length → line + lines_of length ≤ other
        → object_spot line i ≢ object_spot other j }
{}

/// An object takes the fewest lines that have room for its head and its slots.
pub fn lines_are_fewest()
    ensures room { (length : ℕ) → 1 + length ≤ 8 * lines_of length }
    ensures fewest { (length lines : ℕ) → 1 + length ≤ 8 * lines → lines_of length ≤ lines }
{}

/// Objects with one head word have one shape and one number of slots.
pub fn heads_tell_all()
    ensures { (shape length other count : ℕ) → shape < 2 ^ 32 → other < 2 ^ 32
        → head_of shape length ≡ head_of other count → (shape ≡ other) × (length ≡ count) }
{}
