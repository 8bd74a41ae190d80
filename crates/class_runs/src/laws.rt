// The next run of a set, and blank images.
ghost use Rattle.class_runs.specs.Again.{StoppedRunsOpenAgain};
ghost use Rattle.class_runs.specs.Complete.{BlankImagesSuit};

use durable_launch::opened_images_open_again;

/// What a stop of a run of a set left, over an image that stood for a graph, is a bad image for no set. The same set refuses it for no shape
/// but one that was there before the run, and for want of room only where the run made no act and the image's directory lacked it before. Once
/// it was opened for the set, the set refuses it for neither, and the next run begins with the very graph that the stop left. Does nothing.
pub fn stopped_runs_open_again()
    ensures again { StoppedRunsOpenAgain }
{
    opened_images_open_again();
}

/// A blank image suits each class set, and lacks room only for one whose entries don't fit into an empty directory. Does nothing.
pub fn blank_images_suit()
    ensures suit { BlankImagesSuit }
{}
