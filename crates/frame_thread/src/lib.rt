//! The frames of a thread in memory of a fixed size, the instructions on cells alone, and what shared
//! instructions ask.
#![tactic(auto)]

mod flat;
mod flattened;
mod form;
mod forms;
mod host;
mod joined;
mod joining;
mod operators;
mod private;
pub mod requests;
mod said;
pub mod tables;
mod thread;

pub use flat::Flat;
pub use flattened::Flattened;
pub use form::{Activity, Advance, Callee, Form, Standing};
pub use host::Host;
pub use operators::{IntOperator, LongOperator};
pub use private::{Stop, Why};
pub use said::{Fault, Said};
pub use thread::Thread;
