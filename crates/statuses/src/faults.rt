// The statuses of a run that faults and throwables end.
ghost use Rattle.std.specs.Prelude.{◌≡◌};
ghost use Rattle.statuses.specs.Names.{fault_status, main_text, shortened, uncaught_in};
ghost use Rattle.statuses.specs.Statuses.{class_name};

use crate::links::{MAIN, fault_name};
use crate::names::{class_text, method_name};
use crate::texts::class_name;
use crate::{NameRoom, Status};
use ap_base::{Bytes, ThreadNo};
use class_set::ClassSet;
use plain_model::Throws;
use run_types::{LinkKind, RunFault};

/// The status of a run that a fault ended: the names that it has are those of the set's classes and
/// members by their numbers. Takes no memory.
pub fn status_of_fault(set: &ClassSet, fault: &RunFault, room: NameRoom) -> Status
    ensures status { result ≡ fault_status set.now fault.now }
{
    match *fault {
        RunFault::BadCode(at) => Status::BadCode {
            method: method_name(set, at.class, at.method, room),
            pc: at.pc,
        },
        RunFault::RegionRace {
            thread,
            other,
            place,
        } => Status::RegionRace {
            thread,
            other,
            place,
        },
        RunFault::Full(full) => Status::Full(full),
        RunFault::SinkFault => Status::SinkFault,
        RunFault::ImageFault => Status::ImageFault,
        RunFault::Stuck(waits) => Status::Stuck(waits),
        RunFault::LinkFault { kind, class, index } => Status::LinkFault {
            kind,
            name: fault_name(set, kind, class, index, room),
        },
    }
}

/// The status of a run whose least thread that a throwable ended is this one, by an object of this
/// class. Takes no memory.
pub fn uncaught_status(set: &ClassSet, thread: ThreadNo, class: u32, room: NameRoom) -> Status
    ensures status { result ≡ uncaught_in set.now thread class }
{
    Status::Uncaught {
        thread,
        class: room.tell(class_text(set, class)),
    }
}

/// The same where the throwable is one that requests throw. Takes no memory.
pub fn thrown_status(thread: ThreadNo, which: Throws, room: NameRoom) -> Status
    ensures status { result ≡ Status.Uncaught thread (class_name which) }
{
    Status::Uncaught {
        thread,
        class: room.tell(class_name(which)),
    }
}

fn main_name(kind: LinkKind, class: &[u8], room: NameRoom) -> Bytes
    ensures { result ≡ shortened (main_text kind class.now) }
{
    match kind {
        LinkKind::MissingClass => room.tell(class),
        _ => room.tell_member(class, Some(MAIN)),
    }
}

/// The status where the main class isn't there (MissingClass), or its look-up gives no static
/// `main([Ljava/lang/String;)V` (MissingMethod). Takes no memory.
pub fn main_status(kind: LinkKind, class: &[u8], room: NameRoom) -> Status
    ensures status { result ≡ Status.LinkFault kind (shortened (main_text kind class.now)) }
{
    Status::LinkFault {
        kind,
        name: main_name(kind, class, room),
    }
}
