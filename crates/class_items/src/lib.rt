//! The items that the structures of a class file consist of: indices into the constant pool, and attributes
//! (JVMS 4.1, 4.7).
#![tactic(auto)]

mod attribute;
mod indices;
mod kinds;
mod laws;
mod refusal;

pub use attribute::{Attribute, RawAttribute, attributes, put_attributes, raw_attribute};
pub use indices::{index, is_tagged};
pub use kinds::{DescriptorKind, DescriptorKinds, FieldSort};
pub use laws::attributes_are_spelled;
pub use refusal::ItemRefusal;
