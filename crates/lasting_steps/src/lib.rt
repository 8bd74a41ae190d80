//! A class that a thread may use it may use from then on, and a store for which it has asked stays
//! the same store, so that none waits. Laws alone; no code.
#![tactic(auto)]

mod laws;

pub use laws::{
    asked_stores_never_wait, asked_stores_stay, askers_ask_their_stores, classes_stay_passed,
    stores_wait_for_no_passed_class,
};
