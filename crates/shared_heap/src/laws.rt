// Laws of requests.
ghost use Rattle.shared_heap.specs.Laws.{StepsNameNothing};

/// Each act of a request's step stands behind all others, and names nothing.
pub fn steps_add_acts_that_name_nothing()
    ensures acts { StepsNameNothing }
{}
