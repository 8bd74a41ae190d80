//! What operations do and what is known after acts, by computation.
ghost use Rattle.run_history.specs.WorldRows.{MonitorsCount, ClassesAreBegunAndDone, ThreadsChange};
ghost use Rattle.run_history.specs.WorldRows.{MostChangeNothing, HeapsChange, OperationsFit};
ghost use Rattle.run_history.specs.GuardRows.{AreGuarded};
ghost use Rattle.run_history.specs.KnowledgeRows.{AreTold, two_threads, publishing};

/// What each operation does to the parts of a world.
pub fn operations_change_their_part()
    ensures monitors { MonitorsCount }
    ensures classes { ClassesAreBegunAndDone }
    ensures threads { ThreadsChange }
    ensures heaps { HeapsChange }
    ensures none { MostChangeNothing }
    ensures fits { OperationsFit }
{}

/// What is known after each act of two threads, one of which has a region in a region.
pub fn two_threads_are_known()
    ensures stores { AreTold two_threads }
    ensures publishing { AreTold publishing }
{}

/// Whose region has guarded a place after each act of two threads, one of which has a region in a region.
pub fn guards_are_known()
    ensures guards { AreGuarded }
{}
