//! The plain machine as definitions: what a class set tells, the plain step of every request, plain runs, and how they end.
#![tactic(auto)]

mod laws;
mod rows;
mod run_laws;
mod run_rows;
mod set_laws;
mod step_rows;
mod throws;
mod typed_laws;

pub use laws::{
    a_fit_step_keeps_the_heap_sound, durable_objects_stay, durable_places_refer_to_durable_objects,
    objects_have_their_slots, one_more_act, only_what_was_wanted_becomes_durable,
    output_is_that_of_the_acts, the_first_heap_has_its_graph, the_first_heap_is_sound,
    the_first_heap_is_typed, the_heap_of_a_plain_run_is_sound, visible_acts_tell_the_world,
};
pub use rows::{
    a_fence_keeps_the_published_node, a_node_is_published, a_region_guards_and_closes,
    loads_narrow_nothing, stores_are_narrowed, subtypes_are_those_of_the_table,
    the_built_in_classes_are_classes, the_first_heap_has_the_constants, the_programs_are_sound,
};
pub use run_laws::{
    counts_are_at_most_the_acts, faults_have_causes, limits_are_reached,
    lines_are_for_wanted_objects, monitors_have_one_owner, one_store_of_a_thread_is_unfenced,
    regions_are_begun_and_ended, runs_stay_within_their_limits, stuck_threads_do_nothing,
};
pub use run_rows::{
    a_program_prints_7, regions_commit_at_their_end, regions_keep_their_rules,
    runs_end_by_their_rules, stores_keep_their_rules, the_boxes_are_sound,
    threads_keep_their_rules,
};
pub use set_laws::{
    consistent_sets_are_those_of_the_table, known_types_are_there,
    subtypes_have_their_supertypes_fields,
};
pub use step_rows::{
    elements_step_by_the_table, fit_requests_are_those_of_the_table,
    objects_and_fields_step_by_the_table, tests_step_by_the_table, threads_step_by_the_table,
};
pub use throws::Throws;
pub use typed_laws::{
    a_fit_step_fits_the_heap, a_fit_step_keeps_the_heap_typed, acts_of_a_plain_run_fit,
    replies_are_of_their_kind, the_heap_of_a_plain_run_is_typed,
};
