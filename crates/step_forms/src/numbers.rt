// Numbers of references, and values of items.
ghost use Rattle.std.specs.Prelude.{◌≡◌, ◌<◌, length, IfSome};
ghost use Rattle.shared_objects.specs.Shown.{IsKnown, IsKnownItem, item_value};
ghost use Rattle.step_forms.specs.Needs.{HeadIsHere, ValueIsHere};

use ap_base::{Item, Ref};
use graph_model::Value;
use shared_objects::Objects;

/// The number of the object of a reference, none for null.
pub fn numbered<O: Objects>(objects: &O, r: Ref) -> Option<u32>
    requires known { IsKnown (O.shown objects.now).number r }
    requires here { HeadIsHere (O.is_here objects.now) (O.shown objects.now) r }
    ensures number { (O.shown objects.now).number r ≡ result }
    ensures below { IfSome result (λ n. n < length (O.shown objects.now).objects) }
{
    match r {
        Ref::Null => None,
        _ => Some(objects.number_of(r)),
    }
}

/// The value that an item stands for.
pub fn valued<O: Objects>(objects: &O, item: Item) -> Value
    requires known { IsKnownItem (O.shown objects.now).number item }
    requires here { ValueIsHere (O.is_here objects.now)
        (item_value (O.shown objects.now).number item) }
    ensures { result ≡ item_value (O.shown objects.now).number item }
{
    match item {
        Item::Int(i) => Value::Int(i),
        Item::Long(i) => Value::Long(i),
        Item::Ref(r) => match numbered(objects, r) {
            None => Value::Null,
            Some(n) => Value::Obj(n),
        },
    }
}
