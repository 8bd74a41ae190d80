//! A heap of objects that never move, as plain data. It grows, and the last change can be taken
//! back.
#![tactic(auto)]

mod calls;
mod change;
mod heap;
mod instance;
mod object;
mod room;
mod values;

pub use heap::PlainHeap;
pub use object::PlainObject;
