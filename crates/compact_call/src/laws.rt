//! Laws of what compacting comes to. Each function states one in its contract, and does nothing.
ghost use Rattle.compact_call.specs.Laws.{UnhinderedIsDone};

/// Where the old image stands for a graph, and the new one is blank and has room for it, the graph is written, but for failures
/// and want of memory.
pub fn unhindered_is_done()
    ensures { UnhinderedIsDone }
{}
