// Laws of the machine with which a run over an opened image begins.
ghost use Rattle.launch_laws.specs.Laws.{FirstMachinesKeepAsked, FirstMachinesKeepHeaps, FirstMachinesKeepRuns};
ghost use Rattle.launch_laws.specs.Laws.{FirstMachinesKeepStops, FirstMachinesKeepWorlds, FirstMachinesRunAsPlain};
ghost use Rattle.launch_laws.specs.Laws.{RootsLieInTheirSlots};
ghost use Rattle.launch_laws.specs.Shapes.{AgreeingShapesAreOfTheirClass, MadeHeapsHaveTheirDirectory};

/// Nothing is asked, nothing is owed, and the nodes of the opened graph are durable.
pub fn first_machines_keep_what_was_asked()
    ensures { FirstMachinesKeepAsked }
{
    machine_laws::machines_start_with_nothing_asked();
}

/// Each stop leaves the opened graph, where the image tells what is done to it.
pub fn first_machines_keep_stops()
    ensures { FirstMachinesKeepStops }
{
    machine_laws::machines_start_with_allowed_stops();
    machine_laws::opened_images_start_machines();
}

/// The heap is whole and agrees with the empty queues, and what it shows is the plain first world.
pub fn first_machines_show_their_world()
    ensures roots { RootsLieInTheirSlots }
    ensures heaps { FirstMachinesKeepHeaps }
    ensures worlds { FirstMachinesKeepWorlds }
{
    first_spaces::conversions_can_begin_at_the_first_heap();
}

/// All of it is kept.
pub fn first_machines_keep_their_run()
    ensures { FirstMachinesKeepRuns }
{
    first_machines_keep_what_was_asked();
    first_machines_keep_stops();
    first_machines_show_their_world();
}

/// The frames of thread 0 are those of the plain machine.
pub fn first_machines_run_as_plain_runs()
    ensures { FirstMachinesRunAsPlain }
{}

/// A heap that was made with the tables of a directory has the shapes of that directory.
pub fn first_heaps_have_their_directory()
    ensures { MadeHeapsHaveTheirDirectory }
{}

/// The shapes of a directory that agrees with a class set are those of its classes.
pub fn agreeing_directories_have_the_classes_shapes()
    ensures { AgreeingShapesAreOfTheirClass }
{}
