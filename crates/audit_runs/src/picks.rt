// Which kept lists words pick.
ghost use Rattle.audit_runs.specs.Picks.{WordsPickByThreads};

/// Bit t of a word keeps thread t's closing region and its store that isn't fenced, and no bit keeps an open region. Does nothing: its
/// contract says so, of a few marks.
pub fn words_pick_by_threads()
    ensures { WordsPickByThreads }
{}
