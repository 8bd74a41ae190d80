//! The content of a Code attribute: the stack and the locals of a method's frames, its instructions, its exception table
//! and its attributes (JVMS 4.7.3).
#![tactic(auto)]

mod code;
mod fault;
mod handlers;
mod operands;
mod reading;
mod writing;

pub use code::{Code, Handler};
pub use fault::CodeFault;
pub use reading::read_code_attribute;
pub use writing::put_code_attribute;
