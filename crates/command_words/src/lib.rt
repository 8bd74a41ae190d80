//! The words of a command: which they are, as `clap` reads them, and what they ask for.
#![tactic(auto)]

mod building;
mod command;
mod laws;
mod numbers;
mod reading;
mod refusing;
mod text;

pub use building::clap_command;
pub use command::{Asm, Audit, Check, Command, Compact, Dump, Make, Run, WordsFault};
pub use laws::{numbers_are_in_range, words_are_read, words_are_refused};
pub use reading::read_words;
pub use refusing::usage_text;
pub use text::Text;
