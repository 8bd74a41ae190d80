// The step of each request in one world, by computation.
ghost use Rattle.plain_model.specs.StepWorld.{box_world, crowded_world, nearly_crowded_world};
ghost use Rattle.plain_model.specs.StepRows.{AreSteps, KindsServeTheirOwn, PrintsAFront, making, statics, fields};
ghost use Rattle.plain_model.specs.StepRows.{element_reads, element_stores};
ghost use Rattle.plain_model.specs.StepRows.{tests, monitors, threads, nearly_crowded, crowded, others};
ghost use Rattle.plain_model.specs.FitRows.{MadeClassesAreMade, BegunClassesAreDone, ThrowablesAreThrown};
ghost use Rattle.plain_model.specs.FitRows.{FieldsAreOfTheirKind, PiecesArePrinted, TurnsBreakBy};

/// What objects, static fields and instance fields are asked for (JVMS 6.5).
pub fn objects_and_fields_step_by_the_table()
    ensures making { AreSteps box_world making }
    ensures statics { AreSteps box_world statics }
    ensures fields { AreSteps box_world fields }
{}

/// What arrays and Strings are asked for (JVMS 6.5).
pub fn elements_step_by_the_table()
    ensures reads { AreSteps box_world element_reads }
    ensures stores { AreSteps box_world element_stores }
    ensures kinds { KindsServeTheirOwn }
{}

/// Lengths, classes, casts and comparisons (JVMS 6.5).
pub fn tests_step_by_the_table()
    ensures { AreSteps box_world tests }
{}

/// Monitors, threads, initialisation, regions and prints (JVMS 2.11.10, 5.5).
pub fn threads_step_by_the_table()
    ensures monitors { AreSteps box_world monitors }
    ensures threads { AreSteps box_world threads }
    ensures nearly { AreSteps nearly_crowded_world nearly_crowded }
    ensures crowded { AreSteps crowded_world crowded }
    ensures others { AreSteps box_world others }
    ensures prints { PrintsAFront }
{}

/// What requests of code may name.
pub fn fit_requests_are_those_of_the_table()
    ensures made { MadeClassesAreMade }
    ensures begun { BegunClassesAreDone }
    ensures thrown { ThrowablesAreThrown }
    ensures fields { FieldsAreOfTheirKind }
    ensures pieces { PiecesArePrinted }
    ensures broken { TurnsBreakBy }
{}
