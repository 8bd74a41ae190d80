// Laws of directories. Each function states one in its contract, and does nothing.
ghost use Rattle.directories.specs.ClassSets.{ClassSetEntriesCanBePlanned};
ghost use Rattle.directories.specs.Growing.{FormattedImagesStand, AppendedEntriesStand, OthersLeaveDirectories};
ghost use Rattle.directories.specs.Growing.{PlansLeaveDirectories};
ghost use Rattle.directories.specs.Rows.{SmallSetHasEntries, ShapesAgree};
ghost use Rattle.directories.specs.Planning.{PlannedEntriesContinue, ReadEntriesContinue};

/// Wherever the formatting of a blank image stops, the image stands for the empty graph; and once it is formatted, it opens.
pub fn formatted_images_stand()
    ensures { FormattedImagesStand }
{}

/// While entries are appended, each stop leaves an image that stands for the same graph, new null roots aside.
pub fn appended_entries_stand()
    ensures { AppendedEntriesStand }
{}

/// Steps that store to no word of the directory leave it as it stands, and so does planning.
pub fn others_leave_directories()
    ensures others { OthersLeaveDirectories }
    ensures plans { PlansLeaveDirectories }
{}

/// The entries of a class set can be planned, where an image can have its shapes and the names of its roots.
pub fn class_set_entries_can_be_planned()
    ensures { ClassSetEntriesCanBePlanned }
{}

/// The entries of a small class set, and the shapes that agree with it, are those that were worked out by hand.
pub fn a_small_set_has_its_entries()
    ensures entries { SmallSetHasEntries }
    ensures agree { ShapesAgree }
{}

/// What was read from an image's directory are its entries, and what is planned may stand behind them.
pub fn entries_continue()
    ensures read { ReadEntriesContinue }
    ensures planned { PlannedEntriesContinue }
{}
