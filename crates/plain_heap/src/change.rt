// What was changed last.
use graph_model::Value;

/// What was changed last: nothing that can be taken back, a slot or a static field with what it
/// held before, or an
/// object was made, before which so many words were left.
#[derive(Clone, Copy)]
pub enum Change {
    Nothing,
    Slot {
        object: u32,
        index: u32,
        before: Value,
    },
    Static {
        field: u32,
        before: Value,
    },
    Made {
        left: u64,
    },
}
