//! The annotations of class files (JVMS 4.7.16, 4.7.17): which of the runtime's two stand in an attribute.
#![tactic(auto)]

mod form;
mod marks;
mod reading;
mod refusal;
mod value;

pub use marks::Marks;
pub use reading::read_annotations;
pub use refusal::AnnotationRefusal;
