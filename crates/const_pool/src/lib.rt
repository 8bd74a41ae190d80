//! The constant pool of a Java class file.
#![tactic(auto)]

mod descriptor;
mod entry;
mod laws;
mod name;
mod pool;
mod reading;
mod refusal;
mod writing;

pub use descriptor::{
    BaseType, Descriptor, DescriptorRefusal, ElementType, FieldType, Parameters, read_descriptor,
};
pub use entry::{Entry, Member, Tag};
pub use laws::{small_descriptors_are_read, small_pools_have_their_answers};
pub use name::Name;
pub use pool::Pool;
pub use reading::{each_pool_is_read_back, read_pool};
pub use refusal::{PoolRefusal, PushRefusal};
pub use writing::write_pool;
