//! What the words of an image stand for: a graph, or the first check that fails. Definitions and laws; nothing here runs.
#![tactic(auto)]

mod laws;

pub use laws::{
    added_entries_correspond, bad_directories_are_told, checks_come_in_order,
    corresponding_words_stand, counted_entries_are_put_back, directories_are_read,
    entries_are_put_back_one_by_one, entry_rows, found_objects_correspond,
    further_objects_correspond, log_rows, logs_undo_stores, null_roots_stand, numbers_are_spelled,
    object_rows, one_array_stands, same_words_stand, standing_graphs_are_canonical,
    stopped_recoveries_stand, stores_correspond, superblock_rows, well_formed_images_pass,
};
