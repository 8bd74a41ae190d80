//! The dense image of a graph: what words it has, which graphs have one, and that it stands for the graph. Definitions and
//! laws; nothing here runs.
#![tactic(auto)]

mod laws;

pub use laws::{room_is_told, standing_graphs_can_be_written, written_images_stand};
