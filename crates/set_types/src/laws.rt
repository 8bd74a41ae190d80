// What the types of a class set keep.
ghost use Rattle.class_set.specs.Facts.{facts_of};
ghost use Rattle.class_set.specs.Linked.{Linked};
ghost use Rattle.class_set.specs.Sets.{IsLinked};
ghost use Rattle.plain_model.specs.Consistent.{IsConsistent};

use class_set::linked_sets_are_consistent;

/// The facts of a linked set are consistent, as each step asks of them.
pub fn facts_of_class_sets_meet_what_steps_ask()
    ensures { (set : Linked) → IsLinked set → IsConsistent (facts_of set) }
{
    linked_sets_are_consistent();
}
