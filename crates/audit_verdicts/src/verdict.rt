// What an audit answers.

/// What an audit answers of a history, the bytes that it printed and the graph that it left; the first that applies.
#[derive(Clone, Copy, Debug, PartialEq, Eq)]
pub enum Verdict {
    /// The acts are a plain run that prints these bytes, and the graph is the one after the kept list that was picked.
    Yes,
    /// The acts before this one, counted from 0, are a plain run, and with it they aren't.
    Act(u32),
    /// The bytes aren't those of the Print acts.
    Output,
    /// The graph isn't the canonical graph after the kept list that was picked.
    Image,
}
