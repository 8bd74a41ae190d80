/// The throwables that requests throw, each a class of `java/lang` (JVMS 6.5, under "Run-time Exceptions").
#[derive(Clone, Copy, Debug, PartialEq, Eq)]
pub enum Throws {
    NegativeArraySize,
    NullPointer,
    ArrayIndexOutOfBounds,
    StringIndexOutOfBounds,
    ArrayStore,
    ClassCast,
    IllegalMonitorState,
    IllegalThreadState,
    IllegalState,
    Arithmetic,
}
