// Images that are opened for a class set again, and directories that have room for one.
ghost use Rattle.set_opening.specs.Again.{OpenedImagesOpenAgain, ReadyDirectoriesHadRoom, StoredDirectoriesLackNoRoom};

/// An image that was opened for a class set, has its directory still and stands for a graph isn't refused for the set, whatever ran over
/// it meanwhile: it opens with that graph. Whatever image that stands for a graph is refused for the set, for a shape or for want of
/// room, its directory is why. Does nothing.
pub fn opened_images_open_again()
    ensures again { OpenedImagesOpenAgain }
{}

/// The directory of an image lacks no room for a class set of whose entries it lacks none. Does nothing.
pub fn stored_directories_lack_no_room()
    ensures room { StoredDirectoriesLackNoRoom }
{}

/// The directory of an image that was made ready for a class set lacked no room for the set. Does nothing.
pub fn ready_directories_had_room()
    ensures room { ReadyDirectoriesHadRoom }
{}
