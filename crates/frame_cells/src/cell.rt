//! A cell of a frame, and what an instruction did.

ghost use Rattle.std.specs.Prelude.{◌≡◌, Bool};

/// A cell of a frame (JVMS 2.6.1, 2.6.2). A long is `Long` in the lower cell and `Half` in the upper one.
#[derive(Clone, Copy)]
pub enum Cell<R> {
    /// A local variable in which nothing was stored.
    Empty,
    Int(i32),
    Long(i64),
    Half,
    Reference(R),
}

/// What an instruction did that changes only the cells of its frame.
#[derive(Clone, Copy)]
pub enum Did {
    /// On with the next instruction.
    Next,
    /// On with the instruction at this index.
    Jump(u32),
    /// A divisor was zero. The cells are as before.
    DividedByZero,
    /// A cell had a wrong kind, or there were too few cells, or no room for more. The cells are as before.
    Bad,
}

/// What cells ask of references.
pub trait Reference: Copy + Drop {
    ghost null: { Self };

    ghost is_null: { Self → Bool };

    fn null() -> Self
        ensures { result ≡ null };

    fn is_null(self) -> bool
        ensures { result ≡ is_null self };
}
