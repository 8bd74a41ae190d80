//! A graph is written to a blank image, densely: object behind object, and no shape that no node has.
#![tactic(auto)]

mod entry_words;
mod fault;
mod mark;
mod objects;
mod planning;
mod shapes;
mod spelling;
mod values;
mod words;
mod writing;

pub use fault::WriteFault;
pub use planning::lines_taken;
pub use writing::write_image;
