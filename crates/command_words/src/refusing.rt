// What `clap` tells of words that it refuses.
ghost use Rattle.std.specs.Prelude.{◌≡◌, ◌↔◌, [], None, IfOk};
ghost use Rattle.clap.specs.Words.{fault_of};
ghost use Rattle.command_words.specs.Clap.{autopersist};
ghost use Rattle.command_words.specs.Commands.{texts};

use crate::WordsFault;
use crate::building::clap_command;
use crate::reading::cause;
use clap::Error;
use std::alloc::{AllocError, Global};

// Why `clap` refuses words, want of memory aside.
fn refusal(alloc: Global, words: &[String]) -> Result<Option<Error>, AllocError>
    ensures none { IfOk result (λ error. (error ≡ None) ↔ (fault_of autopersist (texts words.now) ≡ [])) }
{
    let Ok(command) = clap_command(alloc) else {
        return Err(AllocError);
    };
    match command.try_get_matches_from(words) {
        Ok(_matches) => Ok(None),
        Err(error) => match cause(&error) {
            WordsFault::OutOfMemory => Err(AllocError),
            WordsFault::Usage => Ok(Some(error)),
        },
    }
}

/// What `clap` tells of words that it refuses: a usage text, or the help that was asked for. `None` exactly where it refuses
/// nothing, also where a number isn't of its form and range.
pub fn usage_text(alloc: Global, words: &Vec<String>) -> Result<Option<String>, AllocError>
    ensures none { IfOk result (λ text. (text ≡ None) ↔ (fault_of autopersist (texts words.now.items) ≡ [])) }
{
    match refusal(alloc, words.as_slice())? {
        None => Ok(None),
        Some(error) => Ok(Some(format!(in alloc; "{error}")?)),
    }
}
