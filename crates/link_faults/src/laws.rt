//! Laws of link faults. Each function states some in its contract, and does nothing.

ghost use Rattle.link_faults.specs.LinkFaults.{LinkFaultsAreNamed, StepsTellWhatIsAsked};

/// Each link fault that a turn asks, or to which an answer leads, names an entry of a pool that the last frame's
/// instruction can't use, or an exception entry for it, or a class alone: one whose objects lack `run` or `toString`,
/// or whose initialiser, the last frame, a throwable left. M is the type of native methods.
pub fn link_faults_name_what_is_wrong<M, R, N, V>()
    ensures { LinkFaultsAreNamed M R N V }
{}

/// A step of the plain machine tells no link fault but the one that its turn asks.
pub fn steps_tell_what_is_asked()
    ensures { StepsTellWhatIsAsked }
{}
