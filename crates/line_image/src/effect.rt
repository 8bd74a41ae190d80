// What is done to an image.

/// What a call did to an image: it wrote a line, or made all earlier writes durable.
#[derive(Clone, Copy, Debug)]
pub enum Done {
    Wrote { line: u64, words: [u64; 8] },
    Fenced,
}

/// A write or a fence, with the number of its call, from 1.
#[derive(Clone, Copy, Debug)]
pub struct Effect {
    pub at: u64,
    pub done: Done,
}
