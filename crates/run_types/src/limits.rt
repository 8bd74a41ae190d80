// The limits of a run.

/// The limits of a run: words of volatile memory, and acts of its history.
#[derive(Clone, Copy, Debug, PartialEq, Eq)]
pub struct Limits {
    pub heap_words: u32,
    pub acts: u32,
}
