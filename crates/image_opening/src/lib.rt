//! An image is opened: attached, fenced and recovered.
#![tactic(auto)]

mod attaching;
mod giving;
mod not_opened;
mod opening;

pub use giving::give_back;
pub use not_opened::NotOpened;
pub use opening::open_image;
