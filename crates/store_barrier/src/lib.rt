//! By which rule a store over the heap of two spaces goes on, and the store itself.
#![tactic(auto)]

mod barrier;
mod laws;
mod stores;

pub use barrier::{Barrier, ask_store};
pub use laws::answers_serve_machines;
pub use machine_forms::{Doing, take_step};
pub use stores::do_store;
