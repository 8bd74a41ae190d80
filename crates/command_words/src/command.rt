// What words ask for.
use crate::text::Text;
use ap_base::Bytes;
use run_types::Limits;

/// What the words of a command ask for.
#[derive(Drop, Debug)]
pub enum Command {
    /// A class is run on an image.
    Run(Run),
    /// The workload is run on an image.
    Make(Make),
    /// An image is opened, and a line about it printed.
    Check(Check),
    /// An image is opened, and its graph printed.
    Dump(Dump),
    /// A listing is assembled, and the bytes of one of its classes printed.
    Asm(Asm),
    /// An image's graph is written to a new image.
    Compact(Compact),
    /// The history and the output of a run are checked against the images before and after it.
    Audit(Audit),
}

/// The words of `run`.
#[derive(Drop, Debug)]
pub struct Run {
    /// The image file's path.
    pub image: Text,
    /// The name of the class that is run, in which a dot counts as a slash.
    pub main: Bytes,
    /// The path of the class files' folder.
    pub folder: Text,
    /// How many host threads run the program's threads: 1 to 64.
    pub workers: u8,
    /// How many lines a new image file gets: 32,768 to 4,194,304.
    pub lines: u32,
    /// The path of the image's mirror, if it has one.
    pub mirror: Option<Text>,
    /// The path of the file that the run's history is saved to, if it is to be.
    pub history: Option<Text>,
    /// The limits of the run: 1,024 to 134,217,728 words of volatile memory, and 1 to 16,777,216 acts.
    pub limits: Limits,
}

/// The words of `make`, which has the default limits.
#[derive(Drop, Debug)]
pub struct Make {
    /// The image file's path.
    pub image: Text,
    /// How many nodes each thread of the workload makes: 1 to 5,000.
    pub count: u32,
    /// How many host threads run the workload's threads: 1 to 64.
    pub workers: u8,
    /// How many lines a new image file gets: 32,768 to 4,194,304.
    pub lines: u32,
    /// The path of the image's mirror, if it has one.
    pub mirror: Option<Text>,
}

/// The words of `check`.
#[derive(Drop, Debug)]
pub struct Check {
    /// The image file's path.
    pub image: Text,
    /// The path of the image's mirror, if it has one.
    pub mirror: Option<Text>,
}

/// The words of `dump`.
#[derive(Drop, Debug)]
pub struct Dump {
    /// The image file's path.
    pub image: Text,
    /// The path of the image's mirror, if it has one.
    pub mirror: Option<Text>,
}

/// The words of `asm`.
#[derive(Drop, Debug)]
pub struct Asm {
    /// The name of the class that is printed, in which a dot counts as a slash.
    pub class: Bytes,
    /// The listing's path.
    pub listing: Text,
}

/// The words of `compact`.
#[derive(Drop, Debug)]
pub struct Compact {
    /// The path of the image whose graph is written.
    pub old: Text,
    /// The path of the image that it is written to.
    pub new: Text,
    /// How many lines a new image file gets: 32,768 to 4,194,304.
    pub lines: u32,
}

/// The words of `audit`.
#[derive(Drop, Debug)]
pub struct Audit {
    /// The path of the image before the run.
    pub before: Text,
    /// The path of the image after the run.
    pub after: Text,
    /// The path of the run's history.
    pub history: Text,
    /// The path of what the run printed.
    pub output: Text,
    /// The name of the class that was run, in which a dot counts as a slash.
    pub main: Bytes,
    /// The path of the class files' folder.
    pub folder: Text,
}

/// Why words give no command.
#[derive(Clone, Copy, Debug, PartialEq, Eq)]
pub enum WordsFault {
    /// They ask for none.
    Usage,
    OutOfMemory,
}
