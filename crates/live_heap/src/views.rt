// What a reader is told.
use graph_model::Value;

/// What is seen at a glance.
#[derive(Clone, Copy, Debug, PartialEq, Eq)]
pub struct Look {
    /// How many acts were seen.
    pub acts: u64,
    /// How many durable roots aren't null.
    pub roots: u32,
    /// How many objects the durable roots reach.
    pub nodes: u32,
    /// How many durable stores there were.
    pub stores: u64,
}

/// Where a path from a durable root leads.
#[derive(Clone, Copy, Debug, PartialEq, Eq)]
pub enum Followed {
    /// What the last place holds.
    Found(Value),
    /// The root, which is step 0, or the slot of a step, counted from 1, isn't there.
    NoPath { step: u64 },
}
