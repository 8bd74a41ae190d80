// A class set as steps ask it.
ghost use Rattle.std.specs.Prelude.{◌≡◌};
ghost use Rattle.class_set.specs.Sets.{IsLinked};

use crate::laws::facts_of_class_sets_meet_what_steps_ask;
use crate::throwables::before_throwable;
use ap_base::Kind;
use class_set::ClassSet;
use plain_model::{Throws, subtypes_have_their_supertypes_fields};
use run_types::Known;
use shared_objects::Types;
use std::marker::Model;

/// A class set as steps ask it: its classes and array types by their numbers. The classes that the
/// runtime knows are looked up once, since each access to an element asks for them.
#[derive(Drop)]
pub struct SetTypes<'a> {
    set: &'a ClassSet,
    known: Known,
}

impl<'a> Model for SetTypes<'a> {
    ghost use Rattle.std.specs.Prelude.{◌≡◌};
    ghost use Rattle.plain_model.specs.Facts.{known_classes};
    ghost use Rattle.class_set.specs.Facts.{facts_of};
    ghost use Rattle.class_set.specs.Linked.{Linked};

    ghost Value = { Linked };

    ghost view = { λ s. s.set.now };

    ghost invariant = { λ s. s.known ≡ known_classes (facts_of s.set.now) };
}

impl<'a> SetTypes<'a> {
    /// The types of a class set.
    pub fn of(set: &'a ClassSet) -> SetTypes<'a>
        ensures types { result ≡ set.now }
        ensures linked { IsLinked set.now }
    {
        let _shapes = set.shapes();
        SetTypes {
            set,
            known: set.known(),
        }
    }
}

impl<'a> Types for SetTypes<'a> {
    ghost use Rattle.class_set.specs.Facts.{facts_of};

    ghost facts = { λ s. facts_of s };

    fn known(&self) -> Known {
        self.known
    }

    fn thrown(&self, which: Throws) -> u32 {
        self.known.throwable - before_throwable(which)
    }

    fn element(&self, class: u32) -> Option<Kind> {
        self.set.shape(class)?.element
    }

    fn fields(&self, class: u32) -> u32 {
        self.set.field_count(class)
    }

    #[inline(always)]
    fn is_sub(&self, class: u32, target: u32) -> bool {
        subtypes_have_their_supertypes_fields();
        facts_of_class_sets_meet_what_steps_ask();
        // that it is linked
        let _shapes = self.set.shapes();
        // mostly an object is of the very class that is asked for
        if class == target {
            return true;
        }
        self.set.is_sub(class, target)
    }

    fn may_hold(&self, array: u32, class: u32) -> bool {
        self.set.may_hold(array, class)
    }
}
