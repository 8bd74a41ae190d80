// Laws of what an image stands for. Each function states one in its contract, and does nothing.
ghost use Rattle.std.specs.Prelude.{ℕ};
ghost use Rattle.image_meaning.specs.Checks.{Words};
ghost use Rattle.image_meaning.specs.Laws.{ChecksComeInOrder, LinesTellTheMeaning, PutBackOneByOne, CountedEntriesArePutBack};
ghost use Rattle.image_meaning.specs.Laws.{DirectoriesAreRead, BadDirectoriesAreTold, CorrespondingWordsStand, SameWordsStand};
ghost use Rattle.image_meaning.specs.Laws.{SameWordsCorrespond, SlotStoreCorresponds, RootStoreCorresponds};
ghost use Rattle.image_meaning.specs.Laws.{OtherObjectsCorrespond, ChangesElsewhereCorrespond, FurtherObjectsCorrespond};
ghost use Rattle.image_meaning.specs.Laws.{AgreeingWordsCorrespond, CorrespondingWordsLieApart};
ghost use Rattle.image_meaning.specs.Appending.{AddedEntryOpens, AddedShapeCorresponds, AddedRootCorresponds, NullRootIsAdded};
ghost use Rattle.image_meaning.specs.Appending.{AddedEntryStands, AddedEntriesStand};
ghost use Rattle.image_meaning.specs.Opening.{WellFormedImagesPass, StandingImageIsFound, FoundImageStands};
ghost use Rattle.image_meaning.specs.Opening.{FoundObjectsLieBefore, StandingGraphsAreCanonical};
ghost use Rattle.image_meaning.specs.Logging.{FreePlacesAreLogged, LoggedStoresAreUndone, EmptiedLogsCommit, OneLogNames};
ghost use Rattle.image_meaning.specs.Logging.{SameLinesSayTheSame};
ghost use Rattle.image_meaning.specs.Recovering.{StoppedRecoveryStands, StoppedRecoveriesAreOne};
ghost use Rattle.image_meaning.specs.Spelling.{NumbersAreSpelled};
ghost use Rattle.image_meaning.specs.Rows.{SuperblockRows, EntryRows, DirectoryRows, PutBackRow, LogRows, LogCountIsChecked};
ghost use Rattle.image_meaning.specs.Rows.{RootRows, ObjectRows, WordRows, WalkRows};
ghost use Rattle.image_meaning.specs.Arrays.{NullRootsStand, ArrayEntriesMayStand, OneArrayStands};

/// The first check that fails counts: of the superblock, the directory, the logs, the root slots, the objects.
pub fn checks_come_in_order()
    ensures { (size : ℕ) (words : Words) → ChecksComeInOrder size words }
{}

/// What an image stands for, or the first check that fails, is told by the words of its lines alone.
pub fn lines_tell_the_meaning()
    ensures { LinesTellTheMeaning }
{}

/// Entries are put back log by log, in each log the last one first.
pub fn entries_are_put_back_one_by_one()
    ensures { PutBackOneByOne }
{}

/// The counted entries of the 64 logs are put back, and nothing else is.
pub fn counted_entries_are_put_back()
    ensures { CountedEntriesArePutBack }
{}

/// A directory is read exactly where its words spell entries.
pub fn directories_are_read()
    ensures { DirectoriesAreRead }
{}

/// A bad directory is told at the line where the first entry that may not stand there would begin.
pub fn bad_directories_are_told()
    ensures { BadDirectoriesAreTold }
{}

/// Words that correspond to a heap stand for its graph.
pub fn corresponding_words_stand()
    ensures { CorrespondingWordsStand }
{}

/// Words that agree where it counts stand for the same graph.
pub fn same_words_stand()
    ensures stand { SameWordsStand }
    ensures correspond { SameWordsCorrespond }
{}

/// The word that is written for a number holds it.
pub fn numbers_are_spelled()
    ensures { NumbersAreSpelled }
{}

/// A change of one slot, or of one root slot, is a store into the heap.
pub fn stores_correspond()
    ensures slot { SlotStoreCorresponds }
    ensures root { RootStoreCorresponds }
{}

/// Words correspond to a heap with which they agree place by place, and words of places are told apart.
pub fn agreeing_words_correspond()
    ensures agree { AgreeingWordsCorrespond }
    ensures apart { CorrespondingWordsLieApart }
{}

/// Objects that lie nowhere don't matter, and a group of them can join those that lie somewhere.
pub fn further_objects_correspond()
    ensures other { OtherObjectsCorrespond }
    ensures elsewhere { ChangesElsewhereCorrespond }
    ensures further { FurtherObjectsCorrespond }
{}

/// An image whose directory has one more entry opens with it, and corresponds to the same heap, with one more null root
/// where the entry is a root's.
pub fn added_entries_correspond()
    ensures opens { AddedEntryOpens }
    ensures shape { AddedShapeCorresponds }
    ensures root { AddedRootCorresponds }
    ensures graph { NullRootIsAdded }
    ensures stands { AddedEntryStands }
    ensures each { AddedEntriesStand }
{}

/// An image that stands for a graph corresponds to each heap that holds the graph, object by object.
pub fn found_objects_correspond()
    ensures found { StandingImageIsFound }
    ensures stands { FoundImageStands }
    ensures before { FoundObjectsLieBefore }
{}

/// An image is well formed exactly where none of the checks fails.
pub fn well_formed_images_pass()
    ensures { WellFormedImagesPass }
{}

/// The graph for which an image stands is that of each heap that holds it.
pub fn standing_graphs_are_canonical()
    ensures { StandingGraphsAreCanonical }
{}

/// A further entry puts its word back at its place, and nothing else changes of what is put back; nor does anything where
/// logged words are stored to. Where a log is emptied, the words that it named show as they are then, and all others as
/// before.
pub fn logs_undo_stores()
    ensures logged { FreePlacesAreLogged }
    ensures undone { LoggedStoresAreUndone }
    ensures emptied { EmptiedLogsCommit }
{}

/// Words are named by the logs where one of them names them, and logs whose lines are the same say the same.
pub fn logs_name_words()
    ensures one { OneLogNames }
    ensures same { SameLinesSayTheSame }
{}

/// What stops within recoveries leave stands for the graph that the image stood for at first.
pub fn stopped_recoveries_stand()
    ensures stand { StoppedRecoveryStands }
    ensures again { StoppedRecoveriesAreOne }
{}

/// An image whose root slots are all 0 stands for roots that are all null.
pub fn null_roots_stand()
    ensures { NullRootsStand }
{}

/// An image of one array of ints, to which one root refers, stands for it.
pub fn one_array_stands()
    ensures entries { ArrayEntriesMayStand }
    ensures stands { OneArrayStands }
{}

/// Images without objects: what is wrong with their superblocks and directories, and blank ones.
pub fn superblock_rows()
    ensures { SuperblockRows }
{}

/// Entries of a directory, and whole directories.
pub fn entry_rows()
    ensures entries { EntryRows }
    ensures directories { DirectoryRows }
{}

/// Logs: their counts, their places, and putting back.
pub fn log_rows()
    ensures counts { LogCountIsChecked }
    ensures places { LogRows }
    ensures put_back { PutBackRow }
{}

/// Root slots, objects, their words, and those that are found.
pub fn object_rows()
    ensures roots { RootRows }
    ensures objects { ObjectRows }
    ensures words { WordRows }
    ensures walks { WalkRows }
{}
