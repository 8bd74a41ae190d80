//! What requests on objects, fields and elements do to a shared world, whatever heap holds the
//! objects.
#![tactic(auto)]

mod commits;
mod finding;
mod making;
mod plans;
mod reading;
mod storing;
mod testing;

pub use commits::commit;
pub use finding::{has_elements, index_below};
pub use making::{new_array, new_object, new_text};
pub use plans::{kind_of_elements, may_hold, plan_element, plan_field, plan_static};
pub use reading::{get_element, get_field, get_static, length};
pub use storing::{Planned, Store, Target, put_element, put_field, put_static};
pub use testing::{cast, class_of, is_a, same};
