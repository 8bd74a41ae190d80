//! What runs first of a linked class set: the main method, the decoded code of the set, and what stands
//! beside a first heap.
#![tactic(auto)]

mod built_ins;
mod mains;
mod refusals;
mod rest;
mod room;

pub use built_ins::program_of;
pub use mains::{Main, NoMain, find_main};
pub use refusals::NoLaunch;
pub use rest::first_rest;
pub use room::find_room;
