// Calls that run nothing.
ghost use Rattle.std.specs.Prelude.{◌≡◌, []};
ghost use Rattle.image_meaning.specs.Meaning.{empty_graph};
ghost use Rattle.autopersist.specs.Reports.{status_of_report};

use class_runs::{Ended, no_graph};
use command_words::WordsFault;
use image_opening::NotOpened;
use image_report::NotReported;
use run_history::Acts;
use statuses::Status;
use std::alloc::Global;

/// What a call gives back that ran nothing.
pub(crate) fn idle<C, I, S, W>(
    alloc: Global,
    status: Status,
    source: C,
    image: I,
    sink: S,
    watcher: W,
) -> Ended<C, I, S, W>
    ensures status { result.status ≡ status }
    ensures opening { result.opening ≡ empty_graph }
    ensures acts { result.acts.acts ≡ [] }
    ensures source { result.source ≡ source }
    ensures image { result.image ≡ image }
    ensures sink { result.sink ≡ sink }
    ensures watcher { result.watcher ≡ watcher }
{
    Ended {
        status,
        opening: no_graph(alloc),
        acts: Acts::new(alloc),
        source,
        image,
        sink,
        watcher,
    }
}

/// The status of words that give no command.
pub(crate) fn of_words(fault: WordsFault) -> Status
    ensures usage { fault ≡ WordsFault.Usage → result ≡ Status.Usage }
    ensures memory { fault ≡ WordsFault.OutOfMemory → result ≡ Status.OutOfMemory }
{
    match fault {
        WordsFault::Usage => Status::Usage,
        WordsFault::OutOfMemory => Status::OutOfMemory,
    }
}

/// The status of a command that prints what is in an image.
pub(crate) fn of_report(how: Result<(), NotReported>) -> Status
    ensures { result ≡ status_of_report how }
{
    match how {
        Ok(()) => Status::Ok,
        Err(NotReported::Unopened(NotOpened::BadImage { line, reason })) => {
            Status::BadImage { line, reason }
        }
        Err(NotReported::Unopened(NotOpened::ImageFailed)) => Status::ImageFault,
        Err(NotReported::SinkFailed) => Status::SinkFault,
        Err(NotReported::Unopened(NotOpened::OutOfMemory) | NotReported::OutOfMemory) => {
            Status::OutOfMemory
        }
    }
}
