// Laws of plain runs, said of their acts alone. `Frames` is what code keeps of a thread.
ghost use Rattle.plain_model.specs.RunLaws.{OneStoreIsUnfenced, DepthIsBeginsLessEnds, GuardsAreOfOpenRegions, OneGuardAPlace};
ghost use Rattle.plain_model.specs.RunLaws.{GuardsWereMadeInTheirRegion, StoresOfRegionsWereGuarded};
ghost use Rattle.plain_model.specs.RunLaws.{ExitsFollowEnters, OneOwnerAKey, CountsAreAtMostActs, StuckThreadsDoNothing};
ghost use Rattle.plain_model.specs.EndLaws.{LogsHold1024, MonitorsAre4096, LinesAreForWanted};
ghost use Rattle.plain_model.specs.Causes.{FaultsHaveCauses};
ghost use Rattle.plain_model.specs.LimitLaws.{RunsStayWithin, EachActLeavesAMark};

/// Of each thread at most one durable store outside regions isn't fenced.
pub fn one_store_of_a_thread_is_unfenced<Frames>()
    ensures { OneStoreIsUnfenced Frames }
{}

/// Regions are as deep as they were begun more often than ended, and guard places only while they are open.
pub fn regions_are_begun_and_ended<Frames>()
    ensures depth { DepthIsBeginsLessEnds Frames }
    ensures guards { GuardsAreOfOpenRegions Frames }
    ensures one_guard { OneGuardAPlace Frames }
    ensures within { GuardsWereMadeInTheirRegion Frames }
    ensures stores { StoresOfRegionsWereGuarded Frames }
{}

/// A monitor has at most one owner, which has entered it more often than left.
pub fn monitors_have_one_owner<Frames>()
    ensures exits { ExitsFollowEnters Frames }
    ensures one_owner { OneOwnerAKey Frames }
{}

/// What is held or nested is no more than there are acts.
pub fn counts_are_at_most_the_acts<Frames>()
    ensures { CountsAreAtMostActs Frames }
{}

/// Where all live threads wait, no thread does anything.
pub fn stuck_threads_do_nothing<Frames>()
    ensures { StuckThreadsDoNothing Frames }
{}

/// A log holds 1,024 places, and 4,096 monitors may be held.
pub fn limits_are_reached()
    ensures logs { LogsHold1024 }
    ensures monitors { MonitorsAre4096 }
{}

/// A fault that acts tell comes of what its name says.
pub fn faults_have_causes<Frames>()
    ensures { FaultsHaveCauses Frames }
{}

/// A run whose events end by no fault stays within its limits of words, acts, monitors and threads.
pub fn runs_stay_within_their_limits<Frames>()
    ensures within { RunsStayWithin Frames }
    ensures marks { EachActLeavesAMark }
{}

/// Lines of the image are used up for objects that are wanted.
pub fn lines_are_for_wanted_objects<Frames>()
    ensures { LinesAreForWanted Frames }
{}
