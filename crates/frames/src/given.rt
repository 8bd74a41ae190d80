//! What a method gives back.

/// A result or an argument. A boolean, byte, char or short is an int (JVMS 2.11.1).
#[derive(Clone, Copy)]
pub enum Given<R> {
    Nothing,
    Int(i32),
    Long(i64),
    Reference(R),
}
