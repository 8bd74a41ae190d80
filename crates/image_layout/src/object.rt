// The words and lines of an object.
ghost use Rattle.std.specs.Prelude.{◌≡◌, ◌^◌, ◌<◌, ◌≤◌, ◌↔◌, ℕ, IsNone, IfSome};
ghost use Rattle.image_layout.specs.Places.{lines_of, object_line, object_word, head_of};

use ap_base::Spot;

/// The head word of an object: its shape's number, and above 32 bits the number of its slots.
pub fn head_word(shape: u32, length: u32) -> u64
    ensures head { result ≡ head_of shape length }
{
    u64::from(shape) + u64::from(length) * (1 << 32)
}

/// The shape's number and the number of slots that a head word tells: the only ones with that word.
pub fn head_parts(word: u64) -> (u32, u32)
    ensures parts { head_of result.0 result.1 ≡ word }
    ensures only { (shape length : ℕ) → shape < 2 ^ 32 → head_of shape length ≡ word
        → (result.0 ≡ shape) × (result.1 ≡ length) }
{
    ((word % (1 << 32)) as u32, (word / (1 << 32)) as u32)
}

/// How many lines an object with so many slots takes: one word more than it has slots, eight a line, rounded up.
pub fn lines_of(length: u32) -> u32
    ensures lines { result ≡ lines_of length }
{
    length / 8 + 1
}

/// The word of a slot of the object that begins at a line. `None` exactly where its line is no number of 32 bits.
pub fn object_slot(line: u32, index: u32) -> Option<Spot>
    ensures none { IsNone result ↔ (2 ^ 32 ≤ object_line line index) }
    ensures line { IfSome result (λ spot. spot.line ≡ object_line line index) }
    ensures word { IfSome result (λ spot. spot.word ≡ object_word index) }
{
    let place = u64::from(index) + 1;
    let line = u64::from(line) + place / 8;
    if line > u64::from(u32::MAX) {
        return None;
    }
    Some(Spot {
        line: line as u32,
        word: (place % 8) as u8,
    })
}
