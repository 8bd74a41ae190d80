// Laws of acts, and of what was asked.
ghost use Rattle.machine_laws.specs.AskLaws.{ActsMayCome, EventsKeepAsked, StartsKeepAsked};

/// A machine without acts, over objects of which the nodes of the opening graph are durable.
pub fn machines_start_with_nothing_asked()
    ensures starts { StartsKeepAsked }
{}

/// The act of each event may come next in a plain run.
pub fn each_act_may_come()
    ensures { ActsMayCome }
{}

/// Each event of a machine leaves what was asked as its acts say.
pub fn events_keep_what_was_asked()
    ensures { EventsKeepAsked }
{}
