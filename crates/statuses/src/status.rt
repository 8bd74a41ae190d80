// How the top call ended.
ghost use Rattle.std.specs.Prelude.{◌≡◌};
ghost use Rattle.statuses.specs.Statuses.{number_of};

use ap_base::{Bytes, Place, ThreadNo};
use class_file::ClassRefusal;
use class_links::LinkRefusal;
use image_layout::BadReason;
use listing_lines::ListingFault;
use run_types::{Full, LinkKind, Waits};

/// How the top call ended.
#[derive(Drop)]
pub enum Status {
    /// All threads ended normally.
    Ok,
    /// All threads ended, and this is the least one that a throwable ended, with the name of its class.
    Uncaught {
        thread: ThreadNo,
        class: Bytes,
    },
    /// The words are no command.
    Usage,
    /// This file is no class file of version 52.0, or uses what isn't in the profile.
    BadClass {
        file: Bytes,
        refusal: ClassRefusal,
    },
    /// The text is no listing: the first line that is bad, counted from 1, and why. Or it has no class of the name that is
    /// asked for, at line 0.
    BadListing {
        line: u32,
        kind: ListingFault,
    },
    /// The image is neither blank nor well formed: the first check that fails, at this line.
    BadImage {
        line: u32,
        reason: BadReason,
    },
    /// The class files don't link.
    LinkRefused {
        refusal: LinkRefusal,
    },
    /// The image's directory has a shape of this name, and the class set has no class with its fields.
    ShapeChanged {
        shape: Bytes,
    },
    /// An instruction of this method found an operand of a wrong kind, or left its stack, its locals or its code.
    BadCode {
        method: Bytes,
        pc: u32,
    },
    /// A thread stored to a place that another thread's open region has guarded.
    RegionRace {
        thread: ThreadNo,
        other: ThreadNo,
        place: Place,
    },
    /// More was needed than there is.
    Full(Full),
    /// The source of class files failed.
    SourceFault,
    /// The image failed.
    ImageFault,
    /// The sink of printed bytes failed.
    SinkFault,
    /// There was no memory. Comes only before the first turn.
    OutOfMemory,
    /// Each live thread waits, and for what it says.
    Stuck(Waits),
    /// A class or a member of this name can't be used.
    LinkFault {
        kind: LinkKind,
        name: Bytes,
    },
    /// The image that is to be written can't be taken.
    NewImage {
        reason: NewReason,
    },
    /// The bytes are no history file: this is the first word, counted from 0, that has no continuation.
    BadHistory {
        word: u64,
    },
    /// The audit of a run refutes it.
    Refuted,
}

/// What is wrong with an image that is to be written.
#[derive(Clone, Copy, Debug, PartialEq, Eq)]
pub enum NewReason {
    /// It has too few lines or too many.
    Size,
    /// It isn't blank.
    NotBlank,
}

impl Status {
    /// The number with which the program ends.
    pub fn number(&self) -> u8
        ensures number { result ≡ number_of self.now }
    {
        match self {
            Status::Ok => 0,
            Status::Uncaught { .. } => 1,
            Status::Usage => 2,
            Status::BadClass { .. } => 3,
            Status::BadImage { .. } => 4,
            Status::LinkRefused { .. } => 5,
            Status::ShapeChanged { .. } => 6,
            Status::BadCode { .. } => 7,
            Status::RegionRace { .. } => 8,
            Status::Full(_) => 9,
            Status::SourceFault => 10,
            Status::ImageFault => 11,
            Status::SinkFault => 12,
            Status::OutOfMemory => 13,
            Status::Stuck(_) => 14,
            Status::LinkFault { .. } => 15,
            Status::BadListing { .. } => 16,
            Status::NewImage { .. } => 18,
            Status::BadHistory { .. } => 19,
            Status::Refuted => 20,
        }
    }
}
