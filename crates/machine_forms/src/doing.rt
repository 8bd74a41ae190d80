// What a thread is about while its store isn't done.

/// What a thread is about between the acts of one store. A store to a durable place is asked, where its
/// value isn't durable yet, made, written back and fenced, each in an event of its own (Shull, Huang and
/// Torrellas, "AutoPersist", PLDI 2019).
#[derive(Clone, Copy)]
pub enum Doing {
    /// nothing: its next request begins afresh
    Nothing,
    /// what its store is to make durable was asked, and is converted until it is
    Converting,
    /// its durable store was made, and this line of the image is to be written back
    Writing(u32),
    /// that line was written back, and a fence is to be made
    Fencing,
}
