// Laws of verdicts. Each function states one in its contract, and does nothing. `Frames` is what code keeps of a thread.
ghost use Rattle.audit_verdicts.specs.Verdicts.{SomeVerdictIsRight, VerdictsExcludeEachOther, YesMeansAllowed};

/// At most one verdict is right.
pub fn verdicts_exclude_each_other<Frames>()
    ensures { VerdictsExcludeEachOther Frames }
{}

/// It can't be that none is right.
pub fn some_verdict_is_right<Frames>()
    ensures { SomeVerdictIsRight Frames }
{}

/// Where the verdict is Yes, the graph is one that the history allows.
pub fn yes_means_allowed<Frames>()
    ensures { YesMeansAllowed Frames }
{}
