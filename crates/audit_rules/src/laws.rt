// Laws of the tests of single acts. Each function states one in its contract, and does nothing.
ghost use Rattle.audit_rules.specs.Closing.{ClosedByAct, DurableStayThere};
ghost use Rattle.audit_rules.specs.Rules.{ActsAreExact, RegionsAreExact, WishesAreExact};

/// What durable places refer to stays durable exactly where the act passes a test of its own.
pub fn acts_keep_what_is_durable_closed()
    ensures closed { ClosedByAct }
    ensures there { DurableStayThere }
{}

/// The tests of regions, guards and stores are exact.
pub fn tests_of_regions_are_exact()
    ensures { RegionsAreExact }
{}

/// The tests of what is asked and of what becomes durable are exact.
pub fn tests_of_wishes_are_exact()
    ensures { WishesAreExact }
{}

/// The test of an act is exact: it passes exactly where the act may come next.
pub fn tests_of_acts_are_exact()
    ensures { ActsAreExact }
{}
