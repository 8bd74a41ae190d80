//! Heap, queues, image and monitors in agreement while objects are converted: what is said of it, and what
//! each kind of step leaves of it.
#![tactic(auto)]

mod laws;
mod step;

pub use laws::{
    calls_of_the_image_keep_agreement, moves_keep_agreement, places_go_on,
    seals_are_fenced_and_closed, stores_keep_agreement,
};
pub use step::ConvertStep;
