// What a thread's next step has to do.

/// What a thread's next step has to do, once its place has gone on.
#[derive(Clone, Copy)]
pub enum Work {
    /// to claim the ordinary object at this index
    Claim(u32),
    /// to copy the next line of the object at this index, to this line of the image
    Copy(u32, u32),
    /// to forward the object at this index, whose copy begins at this line
    Forward(u32, u32),
    /// to repair, of the object at this index whose copy begins at this line, this line
    Repair(u32, u32, u32),
    /// to write back and fence, and then to seal
    Flush,
}
