// Laws of typed heaps. `Frames` is what code keeps of a thread.
ghost use Rattle.plain_model.specs.TypeLaws.{FitStepsFit, FitStepsKeepHeapsTyped};
ghost use Rattle.plain_model.specs.TypeLaws.{RepliesAreOfTheirKind, RepliesAreThere, RepliesOfRunsAreOfTheirKind};
ghost use Rattle.plain_model.specs.TypeLaws.{HeapsOfRunsAreOfTheSet, HeapsOfRunsAreTyped, ActsOfRunsFit};

/// What the step of a fit request does fits the heap: a new object's shape is there, and so is a store's place.
pub fn a_fit_step_fits_the_heap()
    ensures { FitStepsFit }
{}

/// A step of a fit request keeps the heap typed.
pub fn a_fit_step_keeps_the_heap_typed()
    ensures { FitStepsKeepHeapsTyped }
{}

/// The reply to a fit request is of the request's kind, and what it names is there after the step.
pub fn replies_are_of_their_kind<Frames>()
    ensures kinds { RepliesAreOfTheirKind }
    ensures objects { RepliesAreThere }
    ensures runs { RepliesOfRunsAreOfTheirKind Frames }
{}

/// The heap is typed after every plain run of code that keeps its duties.
pub fn the_heap_of_a_plain_run_is_typed<Frames>()
    ensures of_set { HeapsOfRunsAreOfTheSet Frames }
    ensures typed { HeapsOfRunsAreTyped Frames }
{}

/// Each act of a plain run of code that keeps its duties fits the heap before it.
pub fn acts_of_a_plain_run_fit<Frames>()
    ensures { ActsOfRunsFit Frames }
{}
