//! The two annotations that the runtime knows.

/// Which of the runtime's annotations are there. Those that stand in values of other annotations do not count.
#[derive(Clone, Copy, Debug, PartialEq, Eq)]
pub struct Marks {
    /// `Lautopersist/DurableRoot;`.
    pub root: bool,
    /// `Lautopersist/Unrecoverable;`.
    pub unrecoverable: bool,
}
