// The tests of a request that stores, over any heap.
ghost use Rattle.std.specs.Prelude.{◌≡◌, ◌↔◌, IfSome, None};
ghost use Rattle.step_forms.specs.Becomes.{given};
ghost use Rattle.step_forms.specs.Follows.{Agrees};
ghost use Rattle.step_forms.specs.Needs.{IsAskable};
ghost use Rattle.shared_heap.specs.Plans.{PlansTo};

use ap_base::ThreadNo;
use natives::Request;
use object_steps::{Planned, plan_element, plan_field, plan_static};
use shared_objects::{Objects, Rest, Types};

/// What the tests of a request that stores come to; none of any other request.
pub(crate) fn plan_store<C: Types, O: Objects>(
    set: &C,
    objects: &mut O,
    rest: &mut Rest,
    t: ThreadNo,
    request: &Request,
) -> Option<Planned>
    requires agrees { Agrees (C.facts set.now) (O.shown objects.old) rest.old }
    requires asks { IsAskable (C.facts set.now) (O.is_here objects.old)
        (O.is_static_here objects.old) (O.shown objects.old) rest.old t request.now }
    requires make { O.may_make objects.old }
    ensures none { (result ≡ None) ↔ (given request.now ≡ None) }
    ensures same { result ≡ None → (objects.new ≡ objects.old) × (rest.new ≡ rest.old) }
    ensures plans { IfSome result (PlansTo O.shown O.is_here O.is_static_here O.stores O.makes
        (C.facts set.now) t request.now objects.old rest.old objects.new rest.new) }
{
    match *request {
        Request::PutStatic { field, value, .. } => {
            Some(plan_static(objects, rest, t, field, value))
        }
        Request::PutField {
            holder,
            field,
            value,
            ..
        } => Some(plan_field(set, objects, holder, field, value)),
        Request::PutElement {
            array,
            index,
            kind,
            value,
            ..
        } => Some(plan_element(set, objects, array, index, kind, value)),
        _ => None,
    }
}
