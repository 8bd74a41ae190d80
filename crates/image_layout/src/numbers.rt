// The numbers of the layout's table.

/// The fewest lines of an image.
pub const MIN_LINES: u64 = 32_768;

/// The most lines of an image.
pub const MAX_LINES: u64 = 4_194_304;

/// Word 0 of the superblock: the bytes `AUTOPERS`, the first byte the lowest.
pub const MAGIC: u64 = 0x5352_4550_4F54_5541;

/// Word 1 of the superblock.
pub const VERSION: u64 = 1;

/// How many root slots there are, a word each.
pub const ROOT_SLOTS: u32 = 256;

/// The line of root slot 0.
pub const FIRST_SLOT_LINE: u32 = 1;

/// How many words the directory has.
pub const DIRECTORY_WORDS: u32 = 32_768;

/// The line of the directory's word 0.
pub const FIRST_DIRECTORY_LINE: u32 = 33;

/// How many logs there are, one for each thread's number.
pub const LOGS: u32 = 64;

/// The head line of log 0.
pub const FIRST_LOG_LINE: u32 = 4_129;

/// How many lines a log has: its head, and its entries' lines.
pub const LOG_LINES: u32 = 257;

/// How many entries of two words a log has.
pub const LOG_ENTRIES: u32 = 1_024;

/// The first line where an object may begin.
pub const FIRST_OBJECT_LINE: u32 = 20_577;
