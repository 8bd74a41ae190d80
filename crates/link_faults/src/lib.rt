//! What link faults of frames name; laws alone.
#![tactic(auto)]

mod laws;

pub use laws::{link_faults_name_what_is_wrong, steps_tell_what_is_asked};
