// Laws of the first heap.
ghost use Rattle.std.specs.Prelude.{◌≡◌, ◌<◌, ◌^◌, ℕ, All, List, false, length};
ghost use Rattle.plain_model.specs.Consistent.{IsConsistent};
ghost use Rattle.plain_model.specs.Facts.{SetFacts, StaticFacts};
ghost use Rattle.shared_objects.specs.Shown.{Shown};
ghost use Rattle.shared_objects.specs.declared.rest.Rest.{Rest as RestOf};
ghost use Rattle.step_forms.specs.Follows.{Agrees};
ghost use Rattle.one_space.specs.Beside.{IsFirstRest};
ghost use Rattle.one_space.specs.First.{CanBeFirst, IsFirstOf, ShowsFirst};
ghost use Rattle.one_space.specs.declared.parts.FirstParts.{FirstParts as Parts};

/// The parts of a consistent class set without durable roots can be those of a first heap, where
/// its literals have fewer than 2^31 chars. A class file has room for 65,535 (JVMS 4.4.7).
pub fn parts_of_class_sets_can_be_first()
    ensures { (set : SetFacts) (parts : Parts) → IsConsistent set → IsFirstOf set parts
        → All (λ (text : List ℕ). length text < 2 ^ 31) parts.literals → CanBeFirst parts }
{}

/// What every step is given holds of the first heap of a consistent class set without durable
/// roots, with what a world has first beside its heap.
pub fn steps_can_begin_at_the_first_heap()
    ensures { (set : SetFacts) (words : ℕ) (shown : Shown) (rest : RestOf) → IsConsistent set
        → All (λ (s : StaticFacts). s.is_root ≡ false) set.statics → words < 2 ^ 32
        → ShowsFirst set words shown → IsFirstRest set rest → Agrees set shown rest }
{}
