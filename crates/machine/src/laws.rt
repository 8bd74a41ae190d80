// The laws of machines by which events go on.
ghost use Rattle.machine.specs.Laws.{Laws};

/// What the laws of machines give together.
pub(crate) fn laws()
    ensures { Laws }
{
    line_memory::every_line_is_resident();
    machine_threads::acts_meet_no_fault();
    machine_threads::machines_end_by_their_faults();
    machine_threads::calls_of_regions_lower_the_measure();
    machine_threads::events_keep_lines();
    machine_threads::events_take_work();
    machine_threads::lines_stay_unwritten();
    machine_threads::quiet_events_lower_the_measure();
    machine_threads::refusals_fill_the_image();
    machine_threads::events_go_on_as_plain_runs();
    machine_threads::events_keep_runs();
    machine_threads::machines_ask_as_plain_runs();
    machine_threads::others_keep_theirs();
    machine_threads::claimers_convert();
    machine_threads::full_rows_end_runs();
    machine_threads::threads_wait_as_they_ask();
    machine_threads::tested_waits_are_stuck();
    shared_heap::answers_serve_machines();
}
