// What a NameRoom has room for; and at which stage each status comes.
ghost use Rattle.std.specs.Prelude.{◌≡◌, ◌⊎◌, ◌<◌, ℕ, true};
ghost use Rattle.run_types.specs.declared.fault.LinkKind.{LinkKind};
ghost use Rattle.class_set.specs.Linked.{Linked, class_count};
ghost use Rattle.class_set.specs.Sets.{IsLinked};
ghost use Rattle.statuses.specs.Names.{LosesCalled, class_text, is_lost, method_text, named_text, shortened, unnamed};
ghost use Rattle.statuses.specs.Names.{run, to_string, unnamed_text};
ghost use Rattle.statuses.specs.Stages.{StagesAre};

/// The names that a fault of a linked set tells are told whole, but those of array types and of
/// members that these lack.
pub fn names_are_whole()
    ensures methods { (set : Linked) (class method : ℕ) → IsLinked set
        → shortened (method_text set class method) ≡ method_text set class method }
    ensures entries { (set : Linked) (kind : LinkKind) (class index : ℕ) → IsLinked set
        → shortened (named_text set kind class index) ≡ named_text set kind class index }
    ensures classes { (set : Linked) (class : ℕ) → IsLinked set → class < class_count set
        → shortened (class_text set class) ≡ class_text set class }
    ensures unnamed { (set : Linked) (kind : LinkKind) (class : ℕ) → IsLinked set
        → class < class_count set
        → shortened (unnamed_text set kind class) ≡ unnamed_text set kind class }
{}

/// Where a class's objects lack `run` or `toString`, the method that is told of the class is one of these two,
/// and one that it lacks so.
pub fn lost_methods_are_told()
    ensures called { (set : Linked) (kind : LinkKind) (class : ℕ) → LosesCalled set kind class
        → (unnamed set kind class ≡ run) ⊎ (unnamed set kind class ≡ to_string) }
    ensures lost { (set : Linked) (kind : LinkKind) (class : ℕ) → LosesCalled set kind class
        → is_lost set kind class (unnamed set kind class) ≡ true }
{}

/// Each status stands at its stage: those of words, files and linking at one of their own, so that each has its cause.
pub fn statuses_stand_at_their_stages()
    ensures { StagesAre }
{}
