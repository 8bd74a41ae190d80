//! One image over two, of which either may fail.
#![tactic(auto)]

mod halves;
mod labels;
mod mirror;
mod pairing;
mod state;

pub use mirror::law_of_leading;
pub use pairing::MirrorFault;
pub use state::Mirror;
