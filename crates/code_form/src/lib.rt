//! The code of a method as a list of instructions, read from bytes and written back (JVMS 4.7.3, 6.5).
//!
//! The instructions are those of class files of version 52.0 without floats, subroutines, invokedynamic and
//! multianewarray. The indices into the constant pool aren't looked up here.
#![tactic(auto)]

mod fields;
mod ins;
mod laws;
mod opcodes;
mod reading;
mod refusal;
mod table;
mod targets;
mod writing;

pub use ins::{
    Access, Binary, Branch, Case, Cases, Condition, Constant, Conversion, Element, Equality, Ins,
    IntConstant, Local, LongConstant, Number, Placed, Plain, PoolUse, Primitive, Shift, Slot, Sort,
    Stack, Targets,
};
pub use laws::{a_whole_code_is_read, each_instruction_is_read, what_is_no_code_is_refused};
pub use reading::read_code;
pub use refusal::CodeRefusal;
pub use targets::Starts;
pub use writing::write_code;
