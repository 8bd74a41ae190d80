//! What a frame is, and what a thread does next.

use crate::said::Fault;
use frames::Given;
use run_types::{At, Key};

/// Where a method stands: its number, the index of its instruction, and the monitor that it holds for
/// being synchronized.
#[derive(Clone, Copy)]
pub struct Standing<R> {
    pub method: u32,
    pub at: usize,
    pub held: Option<Key<R>>,
}

/// What a frame is, but for its cells.
#[derive(Clone, Copy)]
pub enum Form<R, N> {
    Running(Standing<R>),
    /// A native method: where its requests come from, and what it waits for.
    Native { from: At, state: N },
    /// The initialisation of a class, for an instruction.
    Initialiser { class: u32, from: At },
    /// `main` and its argument, until its class is initialised.
    Main { method: u32, arguments: R },
}

/// What a thread does next, where that is no instruction of its last frame.
#[derive(Clone, Copy)]
pub enum Activity<R> {
    Runs,
    /// Thread 0 begins by the initialisation of the main class.
    BeginsMain(u32),
    /// The thread of a Thread object begins.
    BeginsThread(R),
    /// The last frame is of a synchronized method, and asks for its monitor.
    Enters,
    /// A throwable of a class leaves the last frame, which gives its monitor back first.
    Unwinds(R, u32),
    /// The last frame is an initialiser, and asks for this superclass first.
    Initialises(u32),
    /// The last frame is an initialiser that has run.
    Initialised,
    /// The run ends by a fault.
    Breaks(Fault),
    /// The thread ends, by a throwable of a class that nothing caught, if there is one.
    Ends(Option<u32>),
}

/// The methods that native methods call by the class of a receiver.
#[derive(Clone, Copy)]
pub enum Callee {
    /// `run()V`
    Run,
    /// `toString()Ljava/lang/String;`
    ToString,
}

/// What a native method does next.
#[derive(Clone, Copy)]
pub enum Advance<R, N> {
    /// It waits for a reply.
    Asks(N),
    /// It calls a method that is looked up from a class on.
    Calls {
        state: N,
        callee: Callee,
        class: u32,
        receiver: R,
    },
    /// It gives back a value.
    Gives(Given<R>),
}
