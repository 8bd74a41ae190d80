//! Where each part of an image lies, version 1 of the layout, and the first checks of an image.
//!
//! An image is lines of eight words of 64 bits, 32,768 to 4,194,304 of them:
//!
//! | Lines | Content |
//! |---|---|
//! | 0 | the superblock: the bytes `AUTOPERS`, the version, the count of lines, the directory words in use, zeros |
//! | 1 to 32 | 256 root slots, one word each |
//! | 33 to 4,128 | the directory, 32,768 words |
//! | 4,129 to 20,576 | 64 logs of 257 lines: a head line, whose word 0 counts the entries, and 1,024 entries of two words |
//! | from 20,577 | objects, each at a line's start: the head word, a word per slot, zeros |
//!
//! A log entry is the place, 8 × line + word, and the old word. An object's head is its shape's number plus 2^32
//! times its number of slots. An image of a size in range whose word 0 is 0 is blank.
#![tactic(auto)]

mod laws;
mod numbers;
mod object;
mod places;
mod superblock;

pub use laws::{
    heads_tell_all, lines_are_fewest, object_words_apart, object_words_within,
    objects_behind_parts, parts_apart, parts_fill_the_lines, parts_in_their_rows, table_numbers,
};
pub use numbers::{
    DIRECTORY_WORDS, FIRST_DIRECTORY_LINE, FIRST_LOG_LINE, FIRST_OBJECT_LINE, FIRST_SLOT_LINE,
    LOG_ENTRIES, LOG_LINES, LOGS, MAGIC, MAX_LINES, MIN_LINES, ROOT_SLOTS, VERSION,
};
pub use object::{head_parts, head_word, lines_of, object_slot};
pub use places::{directory_spot, log_entry, log_head, slot_spot};
pub use superblock::{BadReason, Super, check_super};
