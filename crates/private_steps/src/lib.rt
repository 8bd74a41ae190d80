//! The frames of threads: turns of private instructions, and the replies to their requests.
#![tactic(auto)]

mod answers;
mod arguments;
mod calls;
mod coming;
mod replies;
mod standing;
mod thread_frames;
mod turns;

pub use coming::{Come, is_quick};
pub use thread_frames::Frames;
