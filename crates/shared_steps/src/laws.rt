// Laws of steps.
ghost use Rattle.shared_steps.specs.Lasting.{StepsCountOne, StepsKeepClasses, StepsKeepHeaps, StepsKeepObjects};
ghost use Rattle.shared_steps.specs.Lasting.{StepsLeaveTheWords, StepsLeaveWhatAgrees};

/// What a step of a fit request leaves is what the next step needs.
pub fn a_step_leaves_what_agrees()
    ensures heap { StepsKeepHeaps }
    ensures classes { StepsKeepClasses }
    ensures counts { StepsCountOne }
    ensures agrees { StepsLeaveWhatAgrees }
{}

/// What a heap says is left of its words is what a run's limits leave.
pub fn a_step_leaves_the_words_of_the_limits()
    ensures words { StepsLeaveTheWords }
    ensures objects { StepsKeepObjects }
{}
