// Words that give no command.
ghost use Rattle.std.specs.Prelude.{◌≡◌};

use command_words::WordsFault;
use statuses::Status;

/// The status of words that give no command.
pub(crate) fn of_words(fault: WordsFault) -> Status
    ensures usage { fault ≡ WordsFault.Usage → result ≡ Status.Usage }
    ensures memory { fault ≡ WordsFault.OutOfMemory → result ≡ Status.OutOfMemory }
{
    match fault {
        WordsFault::Usage => Status::Usage,
        WordsFault::OutOfMemory => Status::OutOfMemory,
    }
}
