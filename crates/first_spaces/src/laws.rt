// Laws of images over which a run begins, and of the first heap.
ghost use Rattle.first_spaces.specs.Laws.{AppendedImagesAreOpened, EmptyImagesAreOpened, FirstScenesAgree};
ghost use Rattle.first_spaces.specs.Laws.{FoundImagesAreOpened};

use convert_words::places_go_on;

/// A run can begin over an image that was recovered, over one that was formatted, and over each of these once entries
/// were appended to its directory.
pub fn a_run_can_begin_over_recovered_images()
    ensures found { FoundImagesAreOpened }
    ensures empty { EmptyImagesAreOpened }
    ensures appended { AppendedImagesAreOpened }
{}

/// What every step of a conversion is given holds of the first heap, with the queues as they are reserved, the first
/// free line that was found, and no monitor held.
pub fn conversions_can_begin_at_the_first_heap()
    ensures { FirstScenesAgree }
{
    places_go_on();
}
