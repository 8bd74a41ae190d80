// Where a built-in method stands: what it has asked, and what it needs to go on.
//
// Each variant is a request whose reply is waited for, or a call whose result is.

use super::texts::{Spelling, Text};
use ap_base::{Item, Piece, Ref};

/// The methods that built-in methods call, by the class of a receiver.
#[derive(Clone, Copy)]
pub enum Called {
    /// `run()V`.
    Run,
    /// `toString()Ljava/lang/String;`.
    ToString,
}

/// Two objects that are compared.
#[derive(Clone, Copy)]
pub struct Pair<R = Ref> {
    pub left: R,
    pub right: R,
}

/// A method of one request, which gives back what the reply holds.
#[derive(Clone, Copy)]
pub enum Single<R = Ref> {
    Same(Pair<R>),
    Length(R),
    CharAt { text: R, index: i32 },
    SetTarget { thread: R, target: R },
    Start(R),
    Join(R),
    SetMessage { throwable: R, message: R },
    Message(R),
    Begin,
    End,
}

/// `String.equals`.
#[derive(Clone, Copy)]
pub enum Equality<R = Ref> {
    Same(Pair<R>),
    IsString(Pair<R>),
    LeftLength(Pair<R>),
    RightLength {
        pair: Pair<R>,
        length: i32,
    },
    LeftChar {
        pair: Pair<R>,
        length: i32,
        at: i32,
    },
    RightChar {
        pair: Pair<R>,
        length: i32,
        at: i32,
        char: i32,
    },
}

/// A StringBuilder to which a text is appended; its constructor gives nothing back.
#[derive(Clone, Copy)]
pub struct Builder<R = Ref> {
    pub builder: R,
    pub is_new: bool,
}

/// A stream on which a text is printed, or a line.
#[derive(Clone, Copy)]
pub struct Stream<R = Ref> {
    pub stream: R,
    pub is_line: bool,
}

/// What is done with a text.
#[derive(Clone, Copy)]
pub enum Purpose<R = Ref> {
    Append(Builder<R>),
    Print(Stream<R>),
}

/// The text of an object: `Result` waits for its `toString()`.
#[derive(Clone, Copy)]
pub enum ObjectText<R = Ref> {
    IsString { purpose: Purpose<R>, object: R },
    Class { purpose: Purpose<R>, object: R },
    Result(Purpose<R>),
}

/// The constructors of StringBuilder.
#[derive(Clone, Copy)]
pub enum NewBuilder<R = Ref> {
    Array {
        builder: R,
        text: Option<Text<R>>,
    },
    Value {
        builder: R,
        text: Option<Text<R>>,
        array: R,
    },
}

/// What is appended where: the builder had so many chars, in this array.
#[derive(Clone, Copy)]
pub struct Appending<R = Ref> {
    pub to: Builder<R>,
    pub text: Text<R>,
    pub count: i32,
    pub array: R,
}

/// Appending a text, whose chars are `length`. `Larger` waits for a larger array, `Value` for its
/// being put.
#[derive(Clone, Copy)]
pub enum Append<R = Ref> {
    Count {
        to: Builder<R>,
        text: Text<R>,
    },
    Array {
        to: Builder<R>,
        text: Text<R>,
        count: i32,
    },
    Capacity(Appending<R>),
    Length {
        appending: Appending<R>,
        text: R,
        capacity: i32,
    },
    Larger {
        appending: Appending<R>,
        length: i32,
        capacity: i32,
    },
    Value {
        appending: Appending<R>,
        length: i32,
    },
    Char {
        to: Builder<R>,
        array: R,
        count: i32,
        spelling: Spelling,
        at: u8,
    },
    Total {
        to: Builder<R>,
        total: i32,
    },
}

/// What follows once chars are copied: the larger array becomes the builder's; the builder's count
/// is put; or the new String is given back.
#[derive(Clone, Copy)]
pub enum Copied<R = Ref> {
    Larger {
        to: Builder<R>,
        text: Text<R>,
        count: i32,
        length: i32,
    },
    Appended {
        to: Builder<R>,
        count: i32,
    },
    Built,
}

/// Chars `at` to `end` are still to be copied.
#[derive(Clone, Copy)]
pub struct Copying<R = Ref> {
    pub source: R,
    pub target: R,
    pub at: i32,
    pub end: i32,
    pub after: Copied<R>,
}

/// Copying chars: one is read, and then put.
#[derive(Clone, Copy)]
pub enum Copies<R = Ref> {
    Read(Copying<R>),
    Put { copying: Copying<R>, char: i32 },
}

/// `StringBuilder.toString`.
#[derive(Clone, Copy)]
pub enum BuiltText<R = Ref> {
    Count(R),
    Array { builder: R, count: i32 },
    Text { array: R, count: i32 },
}

/// A String of `length` chars. The one at `at` is read next, or, while a piece is printed, was
/// read last; `held` is the last one, where it may be the first of a pair.
#[derive(Clone, Copy)]
pub struct Reading<R = Ref> {
    pub text: R,
    pub at: i32,
    pub length: i32,
    pub held: Option<u16>,
}

/// Printing a text, whose characters are gathered in a piece; `rest` begins the next piece.
#[derive(Clone, Copy)]
pub enum Printing<R = Ref> {
    Enter {
        to: Stream<R>,
        text: Text<R>,
    },
    Length {
        to: Stream<R>,
        text: R,
    },
    Char {
        to: Stream<R>,
        reading: Reading<R>,
        piece: Option<Piece>,
    },
    Piece {
        to: Stream<R>,
        piece: Piece,
        rest: Option<Piece>,
        reading: Option<Reading<R>>,
    },
    Exit(R),
}

/// `Thread.run`: `Result` waits for the end of the target's `run()`.
#[derive(Clone, Copy)]
pub enum Running<R = Ref> {
    Target(R),
    Class(R),
    Result,
}

/// Where a built-in method stands.
#[derive(Clone, Copy)]
pub enum Position<R = Ref> {
    Single(Single<R>),
    Equality(Equality<R>),
    ObjectText(ObjectText<R>),
    NewBuilder(NewBuilder<R>),
    Append(Append<R>),
    Copies(Copies<R>),
    BuiltText(BuiltText<R>),
    Printing(Printing<R>),
    Running(Running<R>),
}

/// What becomes of a reply: the method waits at a position, calls a method of a class and waits
/// for its result, or gives a value back.
pub enum Moved<R = Ref, V = Item> {
    Asks(Position<R>),
    Calls {
        position: Position<R>,
        called: Called,
        class: u32,
        receiver: R,
    },
    Gives(Option<V>),
}
