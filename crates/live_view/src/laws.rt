//! What a reader's count tells, and what a writer shows after its calls. Each function states a law in its contract, and does nothing.
ghost use Rattle.std.specs.Prelude.{◌≡◌, List, length};
ghost use mathlib.Core.List.{IsPrefix};
ghost use Rattle.run_history.specs.Recorded.{Recorded};
ghost use Rattle.live_view.specs.Calls.{PublishingShowsAll, WritersShowWhatTheySaw};

/// Where a reader counts as many acts as it was told of, its acts are those that it was told of: they begin with them (`learn`). So are
/// the acts of each of its answers before then a beginning of what the writer published.
pub fn a_count_as_told_is_of_the_acts_told()
    ensures now { (told acts : List Recorded) → IsPrefix told acts → length acts ≡ length told → acts ≡ told }
    ensures before { (told acts earlier : List Recorded) → IsPrefix told acts → length acts ≡ length told
        → IsPrefix earlier acts → IsPrefix earlier told }
{}

/// What a writer has published begins the acts that it saw. Behind an act that publishes, and behind `tell`, it is all of them, unless
/// something was refused. `AfterSaw` and `AfterTell` are the clauses of the two calls.
pub fn what_is_published_begins_the_acts_seen()
    ensures begins { WritersShowWhatTheySaw }
    ensures all { PublishingShowsAll }
{}
