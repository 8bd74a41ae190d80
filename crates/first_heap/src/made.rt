// An object of given parts.
ghost use Rattle.std.specs.Prelude.{◌≡◌};

use ap_base::ListOf;
use graph_model::{Obj, Value};

/// The object of a class whose slots hold these values.
pub(crate) fn new(shape: u32, values: Vec<Value>) -> Obj
    ensures { result ≡ record { shape = shape; values = values.items } }
{
    Obj {
        shape,
        values: ListOf::from_vec(values),
    }
}
