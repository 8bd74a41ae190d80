// Acts, the entries of a history.
use ap_base::{Piece, Place, ThreadNo};
use graph_model::Value;

/// The monitor of an object, by its number, or of a class (JVMS 2.11.10).
#[derive(Clone, Copy, Debug, PartialEq, Eq)]
pub enum PlainKey {
    Object(u32),
    Class(u32),
}

/// How far a class is initialised (JVMS 5.5): its thread has begun, the asking thread need not wait, or it is done.
#[derive(Clone, Copy, Debug, PartialEq, Eq)]
pub enum Stage {
    Begun,
    Ready,
    Done,
}

/// What an act did. Objects are numbers of the plain heap. The last five are operations of persistence: they leave the
/// plain world as it is.
#[derive(Clone, Copy, Debug, PartialEq, Eq)]
pub enum Op {
    Pause,
    /// A new object of a shape, with so many slots.
    Alloc {
        object: u32,
        shape: u32,
        length: u32,
    },
    Read {
        place: Place,
        value: Value,
    },
    Stored {
        place: Place,
        value: Value,
    },
    Length {
        object: u32,
        length: u32,
    },
    /// A test of an object's class; neither for null.
    Class {
        object: Option<u32>,
        shape: Option<u32>,
    },
    Same {
        yes: bool,
    },
    Enter {
        key: PlainKey,
    },
    Exit {
        key: PlainKey,
    },
    /// A Thread object's thread was started, and has this number.
    Start {
        object: u32,
        child: ThreadNo,
    },
    Join {
        object: u32,
    },
    Init {
        class: u32,
        is: Stage,
    },
    Print {
        bytes: Piece,
    },
    /// A new throwable of a class was thrown.
    Throw {
        object: u32,
        class: u32,
    },
    Begin,
    End,
    /// The thread has ended, by a throwable of this class if there is one.
    Ended {
        uncaught: Option<u32>,
    },
    /// Before a store of this value at this place what the value reaches has to become durable.
    Asked {
        place: Place,
        value: Value,
    },
    /// The objects that stand beside this act became durable.
    Joined,
    /// The thread's open region guards the place: its word is logged before the region stores there.
    Guarded {
        place: Place,
    },
    /// All stores of the thread's region are fenced.
    Closing,
    /// The thread's last durable store is fenced.
    Fenced,
}

/// An entry of the history: its thread, the number of image calls that were finished by then, and what it did.
#[derive(Clone, Copy, Debug, PartialEq, Eq)]
pub struct Act {
    pub thread: ThreadNo,
    pub at: u64,
    pub op: Op,
}
