// What a run over an image gives back.
ghost use Rattle.std.specs.Prelude.{◌≡◌, [], Some, None};
ghost use Rattle.image_meaning.specs.Meaning.{empty_graph};

use ap_base::ListOf;
use run_history::Acts;
use shared_graph::SharedGraph;
use statuses::Status;
use std::alloc::Global;

/// How a run over an image ended, and what it gives back.
#[derive(Drop)]
pub struct Ran<I, S, W> {
    pub status: Status,
    pub opening: SharedGraph,
    pub acts: Acts,
    pub image: I,
    pub sink: S,
    pub watcher: W,
}

/// The graph without roots and nodes.
pub fn no_graph(alloc: Global) -> SharedGraph
    ensures { result ≡ empty_graph }
{
    SharedGraph::new(ListOf::new(alloc), ListOf::new(alloc))
}

/// What a call gives back that ended without a turn.
pub(crate) fn unbegun<I, S, W>(
    alloc: Global,
    status: Status,
    image: I,
    sink: S,
    watcher: W,
) -> Ran<I, S, W>
    ensures status { result.status ≡ status }
    ensures opening { result.opening ≡ empty_graph }
    ensures acts { result.acts.acts ≡ [] }
    ensures image { result.image ≡ image }
    ensures sink { result.sink ≡ sink }
    ensures watcher { result.watcher ≡ watcher }
{
    Ran {
        status,
        opening: no_graph(alloc),
        acts: Acts::new(alloc),
        image,
        sink,
        watcher,
    }
}
