// The classes that the runtime itself makes or tests.

/// The numbers of the classes that the runtime itself makes or tests: `char[]`, String, Object, Runnable,
/// StringBuilder, Thread and Throwable.
#[derive(Clone, Copy, Debug, PartialEq, Eq)]
pub struct Known {
    pub chars: u32,
    pub string: u32,
    pub object: u32,
    pub runnable: u32,
    pub builder: u32,
    pub thread: u32,
    pub throwable: u32,
}
