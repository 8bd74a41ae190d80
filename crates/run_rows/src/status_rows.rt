// How runs end, and the lines and numbers of their statuses. Faults are of a linked set of five classes: numbers 0 to 4 are those of Main,
// Runs, Bare, Base and Alone, 5 to 32 those of the built-in classes, and from 33 on those of the array types: [C, [I and
// [Ljava/lang/String;.
use ap_base::{Bytes, Place, ThreadNo};
use class_file::ClassRefusal;
use class_set::{ClassSet, link};
use code_form::CodeRefusal;
use const_pool::{Pool, PoolRefusal};
use listing::assemble;
use plain_model::Throws;
use run_types::{At, Full, LinkKind, On, RunFault, Waits, Which};
use statuses::{
    NameRoom, Status, main_status, status_of_fault, status_text, thrown_status, uncaught_status,
};
use std::alloc::{AllocError, Global};
use std::test::Fail;

const CLASSES: &[u8] = b".class Main
.super java/lang/Object
.field x I static
.method <clinit> ()V 0 0 static
return
.end
.method main ([Ljava/lang/String;)V 2 1 static
new Gone
pop
invokestatic Lost f ()V
invokestatic Main lost ()V
getstatic Main x J
iconst_1
newarray int
pop
return
.end
.class Runs
.super java/lang/Object
.implements java/lang/Runnable
.class Bare
.super Base
.class Base
.super java/lang/Object
.implements java/lang/Runnable
.method run ()V 0 1 static
return
.end
.method toString ()Ljava/lang/String; 0 0 abstract
.end
.class Alone
.super java/lang/Object
.method main ([Ljava/lang/String;)V 0 0 static abstract
.end
";

fn linked(alloc: Global) -> Result<ClassSet, Fail> {
    let files = assemble(alloc, CLASSES)?;
    if files.len() > 4096 {
        return Err("few classes".into());
    }
    match link(alloc, files) {
        Ok(set) => Ok(set),
        Err(_) => Err("classes that link".into()),
    }
}

/// An entry of Main's pool.
#[derive(Clone, Copy)]
enum Entry {
    /// None: index 0.
    Nothing,
    /// The class of this name.
    Class(&'static [u8]),
    /// The member of this name.
    Member(&'static [u8]),
}

fn is_entry(pool: &Pool, index: u16, entry: Entry) -> bool {
    match entry {
        Entry::Nothing => index == 0,
        Entry::Class(name) => match pool.class_name(index) {
            Some(found) => found.as_slice() == name,
            None => false,
        },
        Entry::Member(name) => {
            let Some(member) = pool.member(index) else {
                return false;
            };
            match pool.name_and_type(member.name_and_type) {
                Some((found, _)) => found.as_slice() == name,
                None => false,
            }
        }
    }
}

fn index_of(set: &ClassSet, entry: Entry) -> u32 {
    let Some(file) = set.files().first() else {
        return u32::MAX;
    };
    for index in 0..file.pool.len() {
        if is_entry(&file.pool, index, entry) {
            return u32::from(index);
        }
    }
    u32::MAX
}

/// A fault, as numbers.
#[derive(Clone, Copy)]
enum Fault {
    /// Why, the class's number, and the entry.
    Link(LinkKind, u32, Entry),
    /// A class, a method and a pc.
    Code(u32, u32, u32),
    /// The thread that stores, the one whose region guards, and the place.
    Race(u8, u8, Place),
    /// Threads that wait: for each other's monitors, or for an initialiser and a conversion.
    Stuck(bool),
    /// What is full, and how much was needed and left.
    Full(Which, u64, u64),
}

/// Faults, the numbers of their statuses, and the lines behind the program's name.
static FAULTS: [(Fault, u8, &str); 35] = [
    (
        Fault::Link(LinkKind::MissingClass, 0, Entry::Class(b"Gone")),
        15,
        "link MissingClass Gone",
    ),
    (
        Fault::Link(LinkKind::MissingClass, 0, Entry::Member(b"f")),
        15,
        "link MissingClass Lost",
    ),
    (
        Fault::Link(LinkKind::MissingMethod, 0, Entry::Member(b"lost")),
        15,
        "link MissingMethod Main.lost()V",
    ),
    (
        Fault::Link(LinkKind::MissingField, 0, Entry::Member(b"x")),
        15,
        "link MissingField Main.xJ",
    ),
    (
        Fault::Link(LinkKind::InitFailed, 0, Entry::Nothing),
        15,
        "link InitFailed Main",
    ),
    (
        Fault::Link(LinkKind::MissingMethod, 0, Entry::Nothing),
        15,
        "link MissingMethod Main.toString()Ljava/lang/String;",
    ),
    (
        Fault::Link(LinkKind::MissingMethod, 1, Entry::Nothing),
        15,
        "link MissingMethod Runs.run()V",
    ),
    (
        Fault::Link(LinkKind::StaticMismatch, 2, Entry::Nothing),
        15,
        "link StaticMismatch Bare.run()V",
    ),
    (
        Fault::Link(LinkKind::NoCode, 3, Entry::Nothing),
        15,
        "link NoCode Base.toString()Ljava/lang/String;",
    ),
    (
        Fault::Link(LinkKind::NoCode, 2, Entry::Nothing),
        15,
        "link NoCode Bare.toString()Ljava/lang/String;",
    ),
    (
        Fault::Link(LinkKind::NoCode, 4, Entry::Nothing),
        15,
        "link NoCode Alone.main([Ljava/lang/String;)V",
    ),
    (
        Fault::Link(LinkKind::MissingMethod, 34, Entry::Nothing),
        15,
        "link MissingMethod [I.toString()Ljava/lang/String;",
    ),
    (
        Fault::Link(LinkKind::MissingMethod, 40, Entry::Member(b"lost")),
        15,
        "link MissingMethod ",
    ),
    (
        Fault::Link(LinkKind::NoCode, 0, Entry::Class(b"Gone")),
        15,
        "link NoCode ",
    ),
    (
        Fault::Code(0, 1, 1),
        7,
        "code Main.main([Ljava/lang/String;)V 1",
    ),
    (Fault::Code(0, 0, 0), 7, "code Main.<clinit>()V 0"),
    (
        Fault::Code(6, 4, 0),
        7,
        "code java/io/PrintStream.print(Ljava/lang/String;)V 0",
    ),
    (Fault::Code(0, 2, 7), 7, "code  7"),
    (Fault::Code(34, 0, 0), 7, "code  0"),
    (
        Fault::Race(
            2,
            1,
            Place::Slot {
                object: 5,
                index: 0,
            },
        ),
        8,
        "race 2 1 slot 5 0",
    ),
    (Fault::Race(1, 2, Place::Static(3)), 8, "race 1 2 static 3"),
    (
        Fault::Stuck(true),
        14,
        "stuck 0 join 1 1 monitor 2 2 monitor 1",
    ),
    (Fault::Stuck(false), 14, "stuck 0 init 1 1 conversion 0"),
    (
        Fault::Full(Which::ImageLines, 12192, 12191),
        9,
        "full ImageLines 12192 12191",
    ),
    (
        Fault::Full(Which::VolatileWords, 2, 1),
        9,
        "full VolatileWords 2 1",
    ),
    (
        Fault::Full(Which::ImageLines, 2, 1),
        9,
        "full ImageLines 2 1",
    ),
    (
        Fault::Full(Which::LogEntries, 2, 1),
        9,
        "full LogEntries 2 1",
    ),
    (Fault::Full(Which::Threads, 2, 1), 9, "full Threads 2 1"),
    (
        Fault::Full(Which::FrameSlots, 2, 1),
        9,
        "full FrameSlots 2 1",
    ),
    (Fault::Full(Which::Acts, 2, 1), 9, "full Acts 2 1"),
    (Fault::Full(Which::Monitors, 2, 1), 9, "full Monitors 2 1"),
    (
        Fault::Full(Which::DirectoryWords, 2, 1),
        9,
        "full DirectoryWords 2 1",
    ),
    (Fault::Full(Which::Roots, 2, 1), 9, "full Roots 2 1"),
    (Fault::Full(Which::Files, 2, 1), 9, "full Files 2 1"),
    (Fault::Full(Which::FileBytes, 2, 1), 9, "full FileBytes 2 1"),
];

fn thread(number: u8) -> ThreadNo {
    ThreadNo::new(number).unwrap_or(ThreadNo::main())
}

/// Thread 0 joins 1, and 1 and 2 have each other's monitors; or 0 waits for an initialiser of 1, and 1 for a conversion of 0.
fn waits(of_monitors: bool) -> Waits {
    let mut waits = Waits::none();
    if of_monitors {
        waits.set(thread(0), On::Join(thread(1)));
        waits.set(thread(1), On::Monitor(thread(2)));
        waits.set(thread(2), On::Monitor(thread(1)));
    } else {
        waits.set(thread(0), On::Init(thread(1)));
        waits.set(thread(1), On::Conversion(thread(0)));
    }
    waits
}

fn fault_of(set: &ClassSet, fault: Fault) -> RunFault {
    match fault {
        Fault::Link(kind, class, entry) => RunFault::LinkFault {
            kind,
            class,
            index: index_of(set, entry),
        },
        Fault::Code(class, method, pc) => RunFault::BadCode(At { class, method, pc }),
        Fault::Race(storing, guarding, place) => RunFault::RegionRace {
            thread: thread(storing),
            other: thread(guarding),
            place,
        },
        Fault::Stuck(of_monitors) => RunFault::Stuck(waits(of_monitors)),
        Fault::Full(which, need, left) => RunFault::Full(Full { which, need, left }),
    }
}

/// Whether a status has this number, and this line but for the program's name.
fn is_told(alloc: Global, status: &Status, number: u8, text: &str) -> Result<bool, AllocError> {
    let line = status_text(alloc, status)?;
    let is_line = match line.as_slice().strip_prefix(b"autopersist: ") {
        Some(rest) => rest.strip_suffix(b"\n") == Some(text.as_bytes()),
        None => false,
    };
    Ok(is_line && status.number() == number)
}

/// The status of a fault of a set.
fn status_of(alloc: Global, set: &ClassSet, fault: Fault) -> Result<Status, AllocError> {
    let room = NameRoom::reserve(alloc)?;
    let fault = fault_of(set, fault);
    Ok(status_of_fault(set, &fault, room))
}

#[test]
fn faults_are_told(rt: HostRuntime) -> Result<(), Fail> {
    let set = linked(rt.alloc())?;
    for (fault, number, text) in &FAULTS {
        let status = status_of(rt.alloc(), &set, *fault)?;
        assert!(rt; is_told(rt.alloc(), &status, *number, text)?, "{text}");
    }
    Ok(())
}

/// What else ends a run, or keeps it from beginning.
#[derive(Clone, Copy)]
enum End {
    /// A throwable of the class with this number.
    Uncaught(u32),
    /// A throwable of the runtime's own.
    Thrown(Throws),
    /// Class A is missing, or has no `main`.
    NoMain(LinkKind),
    /// The file A.class is refused.
    Refused(ClassRefusal),
    NoMemory,
}

/// Ends, the numbers of their statuses, and the lines behind the program's name.
static ENDS: [(End, u8, &str); 30] = [
    (End::NoMemory, 13, "no memory"),
    (
        End::Uncaught(5 + 3),
        1,
        "uncaught 0 java/lang/ArithmeticException",
    ),
    (End::Uncaught(1), 1, "uncaught 0 Runs"),
    (
        End::NoMain(LinkKind::MissingMethod),
        15,
        "link MissingMethod A.main([Ljava/lang/String;)V",
    ),
    (
        End::NoMain(LinkKind::MissingClass),
        15,
        "link MissingClass A",
    ),
    (
        End::Thrown(Throws::NegativeArraySize),
        1,
        "uncaught 0 java/lang/NegativeArraySizeException",
    ),
    (
        End::Thrown(Throws::NullPointer),
        1,
        "uncaught 0 java/lang/NullPointerException",
    ),
    (
        End::Thrown(Throws::ArrayIndexOutOfBounds),
        1,
        "uncaught 0 java/lang/ArrayIndexOutOfBoundsException",
    ),
    (
        End::Thrown(Throws::StringIndexOutOfBounds),
        1,
        "uncaught 0 java/lang/StringIndexOutOfBoundsException",
    ),
    (
        End::Thrown(Throws::ArrayStore),
        1,
        "uncaught 0 java/lang/ArrayStoreException",
    ),
    (
        End::Thrown(Throws::ClassCast),
        1,
        "uncaught 0 java/lang/ClassCastException",
    ),
    (
        End::Thrown(Throws::IllegalMonitorState),
        1,
        "uncaught 0 java/lang/IllegalMonitorStateException",
    ),
    (
        End::Thrown(Throws::IllegalThreadState),
        1,
        "uncaught 0 java/lang/IllegalThreadStateException",
    ),
    (
        End::Thrown(Throws::IllegalState),
        1,
        "uncaught 0 java/lang/IllegalStateException",
    ),
    (
        End::Thrown(Throws::Arithmetic),
        1,
        "uncaught 0 java/lang/ArithmeticException",
    ),
    (
        End::Refused(ClassRefusal::Pool(PoolRefusal::Truncated(9))),
        3,
        "class A.class Pool Truncated 9",
    ),
    (
        End::Refused(ClassRefusal::Pool(PoolRefusal::BadTag(10))),
        3,
        "class A.class Pool BadTag 10",
    ),
    (
        End::Refused(ClassRefusal::Pool(PoolRefusal::BadIndex { entry: 3, index: 7 })),
        3,
        "class A.class Pool BadIndex 3 7",
    ),
    (
        End::Refused(ClassRefusal::Pool(PoolRefusal::BadUtf8(12))),
        3,
        "class A.class Pool BadUtf8 12",
    ),
    (
        End::Refused(ClassRefusal::Truncated(8)),
        3,
        "class A.class Truncated 8",
    ),
    (
        End::Refused(ClassRefusal::BadMagic),
        3,
        "class A.class BadMagic",
    ),
    (
        End::Refused(ClassRefusal::BadVersion {
            major: 53,
            minor: 1,
        }),
        3,
        "class A.class BadVersion 53 1",
    ),
    (
        End::Refused(ClassRefusal::BadIndex {
            offset: 43,
            index: 5,
        }),
        3,
        "class A.class BadIndex 43 5",
    ),
    (
        End::Refused(ClassRefusal::BadDescriptor(6)),
        3,
        "class A.class BadDescriptor 6",
    ),
    (
        End::Refused(ClassRefusal::BadAttribute(77)),
        3,
        "class A.class BadAttribute 77",
    ),
    (
        End::Refused(ClassRefusal::Code {
            method: 1,
            refusal: CodeRefusal::NotInProfile(4, 6),
        }),
        3,
        "class A.class Code 1 NotInProfile 4 6",
    ),
    (
        End::Refused(ClassRefusal::Code {
            method: 2,
            refusal: CodeRefusal::BadTarget(5),
        }),
        3,
        "class A.class Code 2 BadTarget 5",
    ),
    (
        End::Refused(ClassRefusal::BadOperand { method: 3, pc: 8 }),
        3,
        "class A.class BadOperand 3 8",
    ),
    (
        End::Refused(ClassRefusal::RootNotReference(1)),
        3,
        "class A.class RootNotReference 1",
    ),
    (
        End::Refused(ClassRefusal::TrailingBytes(53)),
        3,
        "class A.class TrailingBytes 53",
    ),
];

fn status_of_end(alloc: Global, set: &ClassSet, end: End) -> Result<Status, AllocError> {
    let room = NameRoom::reserve(alloc)?;
    let file = Bytes::copy(alloc, b"A.class")?;
    Ok(match end {
        End::Uncaught(class) => uncaught_status(set, ThreadNo::main(), class, room),
        End::Thrown(throws) => thrown_status(ThreadNo::main(), throws, room),
        End::NoMain(kind) => main_status(kind, b"A", room),
        End::Refused(refusal) => Status::BadClass { file, refusal },
        End::NoMemory => Status::OutOfMemory,
    })
}

#[test]
fn ends_are_told(rt: HostRuntime) -> Result<(), Fail> {
    let set = linked(rt.alloc())?;
    for (end, number, text) in &ENDS {
        let status = status_of_end(rt.alloc(), &set, *end)?;
        assert!(rt; is_told(rt.alloc(), &status, *number, text)?, "{text}");
    }
    Ok(())
}
