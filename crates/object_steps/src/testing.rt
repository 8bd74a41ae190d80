// Tests of objects' classes and of references.
ghost use Rattle.std.specs.Prelude.{◌≡◌};
ghost use Rattle.natives.specs.declared.requests.Request.TheVariants as ask;
ghost use Rattle.plain_model.specs.Duties.{IsClass};
ghost use Rattle.plain_model.specs.Facts.{SetFacts};
ghost use Rattle.shared_objects.specs.Shown.{IsKnown};
ghost use Rattle.step_forms.specs.Becomes.{Becomes, IsQuiet};
ghost use Rattle.step_forms.specs.Follows.{IsHeapOf, IsHeapStep};
ghost use Rattle.step_forms.specs.Needs.{HeadIsHere};
ghost use Rattle.object_steps.specs.Tests.{item_of, same_number};

use ap_base::{Item, Ref};
use natives::Reply;
use plain_model::Throws;
use run_history::Op;
use shared_objects::{Objects, Types};
use step_forms::{Stepped, numbered, throw};

/// The class of an object that is a subtype of `within`.
pub fn class_of<C: Types, O: Objects>(set: &C, objects: &mut O, object: Ref, within: u32) -> Stepped
    requires heap { IsHeapOf (C.facts set.now) (O.shown objects.old) }
    requires known { IsKnown (O.shown objects.old).number object }
    requires head { HeadIsHere (O.is_here objects.old) (O.shown objects.old) object }
    requires make { O.may_make objects.old }
    ensures step { IsHeapStep (C.facts set.now) (λ from. ask.ClassOf from object within)
        (O.shown objects.old) result (O.shown objects.new) }
    ensures heap { Becomes O.shown O.stores O.makes objects.old result objects.new }
{
    let Some(n) = numbered(objects, object) else {
        return throw(set, objects, Throws::NullPointer);
    };
    let shape = objects.shape_of(object);
    if !set.is_sub(shape, within) {
        return Stepped::Wrong;
    }
    Stepped::Did {
        op: Op::Class {
            object: Some(n),
            shape: Some(shape),
        },
        reply: Reply::Shape(shape),
    }
}

/// The test of checkcast (JVMS 6.5).
pub fn cast<C: Types, O: Objects>(set: &C, objects: &mut O, object: Ref, target: u32) -> Stepped
    requires heap { IsHeapOf (C.facts set.now) (O.shown objects.old) }
    requires known { IsKnown (O.shown objects.old).number object }
    requires head { HeadIsHere (O.is_here objects.old) (O.shown objects.old) object }
    requires make { O.may_make objects.old }
    ensures step { IsHeapStep (C.facts set.now) (λ from. ask.Cast from object target)
        (O.shown objects.old) result (O.shown objects.new) }
    ensures heap { Becomes O.shown O.stores O.makes objects.old result objects.new }
{
    let Some(n) = numbered(objects, object) else {
        return Stepped::Did {
            op: Op::Class {
                object: None,
                shape: None,
            },
            reply: Reply::Done,
        };
    };
    let shape = objects.shape_of(object);
    if !set.is_sub(shape, target) {
        return throw(set, objects, Throws::ClassCast);
    }
    Stepped::Did {
        op: Op::Class {
            object: Some(n),
            shape: Some(shape),
        },
        reply: Reply::Done,
    }
}

fn bool_item(yes: bool) -> Item
    ensures { result ≡ item_of yes }
{
    Item::Int(i32::from(yes))
}

/// The test of instanceof (JVMS 6.5).
pub fn is_a<C: Types, O: Objects>(set: &C, objects: &O, object: Ref, target: u32) -> Stepped
    requires heap { IsHeapOf (C.facts set.now) (O.shown objects.now) }
    requires known { IsKnown (O.shown objects.now).number object }
    requires head { HeadIsHere (O.is_here objects.now) (O.shown objects.now) object }
    ensures step { IsHeapStep (C.facts set.now) (λ from. ask.IsA from object target)
        (O.shown objects.now) result (O.shown objects.now) }
    ensures quiet { IsQuiet result }
{
    let Some(n) = numbered(objects, object) else {
        return Stepped::Did {
            op: Op::Class {
                object: None,
                shape: None,
            },
            reply: Reply::Item(bool_item(false)),
        };
    };
    let shape = objects.shape_of(object);
    let yes = set.is_sub(shape, target);
    Stepped::Did {
        op: Op::Class {
            object: Some(n),
            shape: Some(shape),
        },
        reply: Reply::Item(bool_item(yes)),
    }
}

fn is_same(left: Option<u32>, right: Option<u32>) -> bool
    ensures { result ≡ same_number left right }
{
    match (left, right) {
        (None, None) => true,
        (Some(m), Some(n)) => m == n,
        _ => false,
    }
}

/// Whether two references are of one object (JVMS 6.5, if_acmpeq), whichever of its references they
/// are.
pub fn same<O: Objects>(objects: &O, left: Ref, right: Ref) -> Stepped
    requires known_left { IsKnown (O.shown objects.now).number left }
    requires known_right { IsKnown (O.shown objects.now).number right }
    requires left { HeadIsHere (O.is_here objects.now) (O.shown objects.now) left }
    requires right { HeadIsHere (O.is_here objects.now) (O.shown objects.now) right }
    ensures step { (set : SetFacts) → IsHeapStep set (λ from. ask.Same from left right)
        (O.shown objects.now) result (O.shown objects.now) }
    ensures quiet { IsQuiet result }
{
    let yes = is_same(numbered(objects, left), numbered(objects, right));
    Stepped::Did {
        op: Op::Same { yes },
        reply: Reply::Item(bool_item(yes)),
    }
}
