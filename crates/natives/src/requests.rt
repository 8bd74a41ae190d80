// Requests and replies, over references R and values V: those of the code, or those of the plain
// heap.
use ap_base::{Item, Kind, Piece, Ref};
use run_types::{At, FieldAt, Key, StepFault};

/// What one shared instruction, or a step of a native method, asks of the heap. `from` is the
/// instruction that asks.
///
/// The references are operands, so they may be null; a request says which throwable comes of that
/// (JVMS 6.5).
#[derive(Drop)]
pub enum Request<R = Ref, V = Item> {
    /// A turn ended without a shared instruction.
    Pause,
    /// The turn ends the run by this fault.
    Broken(StepFault),
    /// A new object of a class (JVMS 6.5, new).
    New {
        from: At,
        class: u32,
    },
    /// A new array of an array type (JVMS 6.5, newarray, anewarray).
    NewArray {
        from: At,
        shape: u32,
        length: i32,
    },
    /// A new String of so many chars.
    NewText {
        from: At,
        length: i32,
    },
    GetStatic {
        from: At,
        field: FieldAt,
    },
    PutStatic {
        from: At,
        field: FieldAt,
        value: V,
    },
    GetField {
        from: At,
        holder: R,
        field: FieldAt,
    },
    PutField {
        from: At,
        holder: R,
        field: FieldAt,
        value: V,
    },
    /// An element of an array of this kind, where `B` reads byte and boolean arrays, or a char of
    /// a String for `Text`.
    GetElement {
        from: At,
        array: R,
        index: i32,
        kind: Kind,
    },
    PutElement {
        from: At,
        array: R,
        index: i32,
        kind: Kind,
        value: V,
    },
    /// The length of an array or a String.
    Length {
        from: At,
        array: R,
    },
    /// The class of an object that is a subtype of `within`.
    ClassOf {
        from: At,
        object: R,
        within: u32,
    },
    /// The test of checkcast (JVMS 6.5).
    Cast {
        from: At,
        object: R,
        target: u32,
    },
    /// The test of instanceof (JVMS 6.5).
    IsA {
        from: At,
        object: R,
        target: u32,
    },
    /// Whether two references are of one object (JVMS 6.5, if_acmpeq).
    Same {
        from: At,
        left: R,
        right: R,
    },
    Enter {
        from: At,
        key: Key<R>,
    },
    Exit {
        from: At,
        key: Key<R>,
    },
    /// Starts the thread of a Thread object.
    Start {
        from: At,
        thread: R,
    },
    /// Waits for the end of a Thread object's thread.
    Join {
        from: At,
        thread: R,
    },
    /// The initialisation of a class (JVMS 5.5) before its first use.
    Init {
        from: At,
        class: u32,
    },
    /// The initialiser of a class has ended.
    InitDone {
        from: At,
        class: u32,
    },
    /// Prints at least one byte of the piece.
    Print {
        from: At,
        piece: Piece,
    },
    /// Throws a new throwable of a class.
    Raise {
        from: At,
        class: u32,
    },
    /// Opens a failure-atomic region, or one more level of it.
    Begin {
        from: At,
    },
    /// Closes a level of a failure-atomic region.
    End {
        from: At,
    },
    /// The thread has ended, by a throwable of this class that nothing caught, if there is one.
    Leave {
        uncaught: Option<u32>,
    },
}

/// What the heap replies to a request.
#[derive(Drop)]
pub enum Reply<R = Ref, V = Item> {
    Done,
    Item(V),
    /// The new object.
    Made(R),
    /// The class of the object.
    Shape(u32),
    /// The class has to be initialised first: the thread does it, and asks again.
    Init(u32),
    /// So many bytes of the piece were printed.
    Printed(u32),
    /// A new throwable, and its class.
    Thrown { object: R, class: u32 },
}
