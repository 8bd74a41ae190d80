// A text among the words.
ghost use Rattle.std.specs.Prelude.{◌≡◌, IfOk};

use std::alloc::{AllocError, Global};
use std::marker::Model;

/// A text that the words give, as a file's path.
#[derive(Drop, Debug)]
pub struct Text {
    text: String,
}

impl Model for Text {
    ghost use Rattle.std.specs.Prelude.{ℕ, List};
    ghost use Rattle.std.specs.String.{string_bytes};

    ghost Value = { List ℕ };

    ghost view = { λ text. string_bytes text.text };
}

impl Text {
    /// A copy of the text.
    pub fn copy(alloc: Global, from: &str) -> Result<Text, AllocError>
        ensures same { IfOk result (λ text. text ≡ from.now) }
    {
        Ok(Text {
            text: String::from_str(alloc, from)?,
        })
    }

    /// The text.
    pub fn as_str(&self) -> &str
        ensures same { result.now ≡ self.now }
    {
        self.text.as_str()
    }
}
