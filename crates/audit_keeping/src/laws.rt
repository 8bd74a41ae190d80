// Laws of what is kept. Each function states some in its contract, and does nothing.
ghost use Rattle.audit_keeping.specs.Beginning.{KeepingBegins};
ghost use Rattle.audit_keeping.specs.Goes.{JoiningGoesOn, KeepingGoesOn};
ghost use Rattle.audit_keeping.specs.Keeping.{AskedIsKnown, KeptIsKnown};
ghost use Rattle.audit_keeping.specs.Steps.{ActsAreDecided, JoinedIsDecided};

/// What is kept is what is known, after one more act of any kind.
pub fn what_is_kept_is_known()
    ensures known { KeptIsKnown }
    ensures asked { AskedIsKnown }
{}

/// What is kept decides each act: it passes exactly where it may come next.
pub fn what_is_kept_decides_acts()
    ensures acts { ActsAreDecided }
    ensures joined { JoinedIsDecided }
{}

/// What is kept, wanted sets too, goes on to stand for the acts with each one that may come next.
pub fn what_is_kept_goes_on()
    ensures acts { KeepingGoesOn }
    ensures joined { JoiningGoesOn }
{}

/// What is kept before the first act stands for no acts.
pub fn keeping_begins()
    ensures { KeepingBegins }
{}
