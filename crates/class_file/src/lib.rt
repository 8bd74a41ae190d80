//! Class files of version 52.0, read with the first fault and written byte for byte (JVMS 4).
//!
//! Classes that use float, double, invokedynamic, subroutines or multianewarray are refused.
#![tactic(auto)]

mod class;
mod facts;
mod field;
mod fields;
mod laws;
mod method;
mod methods;
mod reading;
mod refusal;
mod roots;
mod texts;
mod writing;

pub use class::ClassFile;
pub use field::Field;
pub use laws::{
    instructions_take_bytes, small_classes_have_their_answers, what_is_read_is_written,
    what_is_written_is_read,
};
pub use method::{Method, MethodAttribute};
pub use reading::read_class;
pub use refusal::ClassRefusal;
pub use writing::write_class;
