// How many quiet steps events make.
ghost use Rattle.machine.specs.Work.{FirstHasNoWork, QuietStepsAreFew, QuietStepsOfRunsAreFew};

/// A quiet step is a `Micro` that adds no act. The machine with which a run begins has no work left; events that don't end
/// the run make at most as many quiet steps as there is work left, and 16 for each act that they add and each line of the
/// image that they take.
pub fn quiet_steps_are_few()
    ensures first { FirstHasNoWork }
    ensures few { QuietStepsAreFew }
    ensures runs { QuietStepsOfRunsAreFew }
{}
