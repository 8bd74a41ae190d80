//! Laws of what is seen of a run. Each function states one in its contract, and does nothing.
#![tactic(auto)]

ghost use Rattle.live_laws.specs.Laws.{ActsAreCounted, NodesAreThoseOfTheGraph, SeenHeapIsThePlainHeap};
ghost use Rattle.live_laws.specs.Durables.{SeenIsWhatIsKnown};
ghost use Rattle.live_laws.specs.Strays.{StraysChangeNothing};

use plain_model::acts_of_a_plain_run_fit;

/// After the acts of a plain run the heap that is seen is the plain world's. `Frames` is what code keeps of a thread.
pub fn the_seen_heap_is_the_plain_heap<Frames>()
    ensures { SeenHeapIsThePlainHeap Frames }
{
    acts_of_a_plain_run_fit::<Frames>();
}

/// So are the objects that are flagged and the stores that are counted those that are durable there.
pub fn what_is_seen_is_what_is_known<Frames>()
    ensures { SeenIsWhatIsKnown Frames }
{}

/// After any acts, one that no plain run makes is counted and changes nothing else; any other is done.
pub fn strays_change_nothing()
    ensures { StraysChangeNothing }
{}

/// What is seen after some acts has as many.
pub fn acts_are_counted()
    ensures { ActsAreCounted }
{}

/// A look counts the nodes of the graph for which the heap stands.
pub fn nodes_are_those_of_the_graph()
    ensures { NodesAreThoseOfTheGraph }
{}
