// Kinds of places.

/// The kind of a field or an element, by its descriptor's first letter (JVMS 4.3.2): boolean, byte, char, short, int,
/// long, a reference of any type. `Text` are the chars of a String, which a program reads but doesn't store.
#[derive(Clone, Copy, Debug, PartialEq, Eq)]
pub enum Kind {
    Z,
    B,
    C,
    S,
    I,
    J,
    L,
    Text,
}
