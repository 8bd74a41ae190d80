//! What the steps of a shared world need of a heap whose objects may move and of a class set, and
//! the plain world that heap, monitors,
//! classes and threads stand for.
#![tactic(auto)]

mod objects;
mod rest;
mod threads;
mod types;

pub use objects::Objects;
pub use rest::Rest;
pub use threads::{MOST_THREADS, ThreadState, Threads};
pub use types::Types;
