// Which lines the objects of a run take, what a refusal comes to, and by how much events lower the work
// that is left.
ghost use Rattle.machine_ends.specs.LineLaws.{EventsKeepLines, LinesAreThoseOfObjects, RefusalsEndTheRun};
ghost use Rattle.machine_ends.specs.LineLaws.{RefusedBeginningsFillTheImage, RefusedStepsFillTheImage, StartsTakeNoLines};
ghost use Rattle.machine_ends.specs.Regions.{EndingLowersTheMeasure, GuardsAddEightToTheMeasure, LoggingLowersTheMeasure};
ghost use Rattle.machine_ends.specs.Unwritten.{EventsLeaveUnwritten, StartsHaveUnwritten};
ghost use Rattle.machine_ends.specs.Work.{ActsAddTwo, ActsAddTwoToTheMeasure, AskedAddsNone, BeginningsAddLines};
ghost use Rattle.machine_ends.specs.Work.{CallsLeaveWork, ConversionsTakeWork, DurableStoresAddTwo, FencesTakeOne};
ghost use Rattle.machine_ends.specs.Work.{QuietEventsLowerTheMeasure, SealsAddNone, WritesTakeOne};

/// At the start no object of the run has lines. Each event leaves that they took the lines from the first
/// free one on; each has as many as the plain heap's object takes.
pub fn events_keep_lines()
    ensures objects { LinesAreThoseOfObjects }
    ensures starts { StartsTakeNoLines }
    ensures events { EventsKeepLines }
{}

/// A claim that is refused for want of lines fills the image by the acts, and so ends the run where they
/// tell of no fault.
pub fn refusals_fill_the_image()
    ensures steps { RefusedStepsFillTheImage }
    ensures begins { RefusedBeginningsFillTheImage }
    ensures ends { RefusalsEndTheRun }
{}

/// Until its flush a thread writes none of its lines back, whatever the machine does.
pub fn lines_stay_unwritten()
    ensures starts { StartsHaveUnwritten }
    ensures events { EventsLeaveUnwritten }
{}

/// Quiet events take one at least of the work that is left; a claim, which is one, adds sixteen at most for
/// each line that it takes, and an act two at most.
pub fn events_take_work()
    ensures calls { CallsLeaveWork }
    ensures writes { WritesTakeOne }
    ensures fences { FencesTakeOne }
    ensures steps { ConversionsTakeWork }
    ensures begins { BeginningsAddLines }
    ensures seals { SealsAddNone }
    ensures asked { AskedAddsNone }
    ensures beside { ActsAddTwo }
    ensures durable { DurableStoresAddTwo }
{}

/// With sixteen for each line that is left, each quiet event lowers the measure: a claim is one.
pub fn quiet_events_lower_the_measure()
    ensures quiet { QuietEventsLowerTheMeasure }
    ensures acts { ActsAddTwoToTheMeasure }
{}

/// Each call of a region's log that is made lowers the measure, and one that fails leaves it; a place that
/// is guarded adds eight at most, and no other act of a region adds any.
pub fn calls_of_regions_lower_the_measure()
    ensures logging { LoggingLowersTheMeasure }
    ensures ending { EndingLowersTheMeasure }
    ensures acts { GuardsAddEightToTheMeasure }
{}
