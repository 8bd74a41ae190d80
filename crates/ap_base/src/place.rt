// Places of the heap, and words of the image.
ghost use Rattle.std.specs.Prelude.{◌<◌};

/// A place of the heap: a static field by its number, or a slot (a field or an element) of an object.
#[derive(Clone, Copy, Debug, PartialEq, Eq)]
pub enum Place {
    Static(u32),
    Slot { object: u32, index: u32 },
}

/// A word of the image: its line and its place in the line, below 8.
#[derive(Clone, Copy, Debug, PartialEq, Eq)]
pub struct Spot {
    pub line: u32,
    pub word: u8,
    pub ghost in_line: { word < 8 },
}
