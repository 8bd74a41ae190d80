// The texts of statuses.
ghost use Rattle.std.specs.Prelude.{◌≡◌, ◌<◌, ◌≤◌, ◌∷◌, [], ◌++◌, length, codes, OnOk, IfOk};
ghost use Rattle.std.specs.List.{flat_map};
ghost use Rattle.statuses.specs.Statuses.{spaced, with_numbers, pool_text, code_text, class_text, with_names, link_text};
ghost use Rattle.statuses.specs.Statuses.{class_name, which_text, place_text, on_text, wait_text, waits_text, kind_text};
ghost use Rattle.statuses.specs.Statuses.{listing_text, new_text, reason_text, what_of, text_of};

use crate::{NewReason, Status};
use ap_base::{Bytes, Place, ThreadNo};
use class_file::ClassRefusal;
use class_links::LinkRefusal;
use code_form::CodeRefusal;
use const_pool::PoolRefusal;
use image_layout::BadReason;
use listing_lines::ListingFault;
use plain_model::Throws;
use put_bytes::{put_decimal, put_text as put};
use run_types::{LinkKind, On, Waits, Which};
use std::alloc::{AllocError, Global};

// A space and a number.
fn put_number(out: &mut Vec<u8>, number: u64) -> Result<(), AllocError>
    ensures { OnOk result (out.new.items ≡ out.old.items ++ spaced number) }
{
    out.push(b' ')?;
    put_decimal(out, number)
}

// A name and a number.
fn put_with(out: &mut Vec<u8>, name: &[u8], number: u64) -> Result<(), AllocError>
    ensures { OnOk result (out.new.items ≡ out.old.items ++ with_numbers name.now (number ∷ [])) }
{
    put(out, name)?;
    put_number(out, number)
}

// A name and two numbers.
fn put_with_two(out: &mut Vec<u8>, name: &[u8], first: u64, second: u64) -> Result<(), AllocError>
    ensures { OnOk result (out.new.items
        ≡ out.old.items ++ with_numbers name.now (first ∷ second ∷ [])) }
{
    put(out, name)?;
    put_number(out, first)?;
    put_number(out, second)
}

fn put_pool(out: &mut Vec<u8>, refusal: PoolRefusal) -> Result<(), AllocError>
    ensures { OnOk result (out.new.items ≡ out.old.items ++ pool_text refusal) }
{
    match refusal {
        PoolRefusal::Truncated(at) => put_with(out, b"Truncated", at as u64),
        PoolRefusal::BadTag(at) => put_with(out, b"BadTag", at as u64),
        PoolRefusal::BadIndex { entry, index } => {
            put_with_two(out, b"BadIndex", u64::from(entry), u64::from(index))
        }
        PoolRefusal::BadUtf8(at) => put_with(out, b"BadUtf8", at as u64),
        PoolRefusal::OutOfMemory => put(out, b"OutOfMemory"),
    }
}

fn put_code(out: &mut Vec<u8>, refusal: CodeRefusal) -> Result<(), AllocError>
    ensures { OnOk result (out.new.items ≡ out.old.items ++ code_text refusal) }
{
    match refusal {
        CodeRefusal::BadOpcode(pc) => put_with(out, b"BadOpcode", u64::from(pc)),
        CodeRefusal::NotInProfile(pc, opcode) => {
            put_with_two(out, b"NotInProfile", u64::from(pc), u64::from(opcode))
        }
        CodeRefusal::BadTarget(pc) => put_with(out, b"BadTarget", u64::from(pc)),
        CodeRefusal::Truncated(pc) => put_with(out, b"Truncated", u64::from(pc)),
        CodeRefusal::OutOfMemory => put(out, b"OutOfMemory"),
    }
}

fn put_method_code(out: &mut Vec<u8>, method: u16, refusal: CodeRefusal) -> Result<(), AllocError>
    ensures { OnOk result (out.new.items ≡ out.old.items
        ++ (with_numbers (codes "Code") (method ∷ []) ++ codes " " ++ code_text refusal)) }
{
    put_with(out, b"Code", u64::from(method))?;
    put(out, b" ")?;
    put_code(out, refusal)
}

fn put_class(out: &mut Vec<u8>, refusal: ClassRefusal) -> Result<(), AllocError>
    ensures { OnOk result (out.new.items ≡ out.old.items ++ class_text refusal) }
{
    match refusal {
        ClassRefusal::Pool(refusal) => {
            put(out, b"Pool ")?;
            put_pool(out, refusal)
        }
        ClassRefusal::Truncated(at) => put_with(out, b"Truncated", at as u64),
        ClassRefusal::BadMagic => put(out, b"BadMagic"),
        ClassRefusal::BadVersion { major, minor } => {
            put_with_two(out, b"BadVersion", u64::from(major), u64::from(minor))
        }
        ClassRefusal::BadIndex { offset, index } => {
            put_with_two(out, b"BadIndex", offset as u64, u64::from(index))
        }
        ClassRefusal::BadDescriptor(index) => put_with(out, b"BadDescriptor", u64::from(index)),
        ClassRefusal::BadAttribute(at) => put_with(out, b"BadAttribute", at as u64),
        ClassRefusal::Code { method, refusal } => put_method_code(out, method, refusal),
        ClassRefusal::BadOperand { method, pc } => {
            put_with_two(out, b"BadOperand", u64::from(method), u64::from(pc))
        }
        ClassRefusal::RootNotReference(field) => {
            put_with(out, b"RootNotReference", u64::from(field))
        }
        ClassRefusal::TrailingBytes(at) => put_with(out, b"TrailingBytes", at as u64),
        ClassRefusal::OutOfMemory => put(out, b"OutOfMemory"),
    }
}

// What is wrong with a class.
fn put_of_class(out: &mut Vec<u8>, what: &[u8], class: &Bytes) -> Result<(), AllocError>
    ensures { OnOk result (out.new.items ≡ out.old.items ++ with_names what.now (class.now ∷ [])) }
{
    put(out, what)?;
    put(out, b" ")?;
    put(out, class.as_slice())
}

// What is wrong with a class and its superclass or superinterface.
fn put_of_super(
    out: &mut Vec<u8>,
    what: &[u8],
    class: &Bytes,
    super_class: &Bytes,
) -> Result<(), AllocError>
    ensures { OnOk result (out.new.items
        ≡ out.old.items ++ with_names what.now (class.now ∷ super_class.now ∷ [])) }
{
    put_of_class(out, what, class)?;
    put(out, b" ")?;
    put(out, super_class.as_slice())
}

fn put_link(out: &mut Vec<u8>, refusal: &LinkRefusal) -> Result<(), AllocError>
    ensures { OnOk result (out.new.items ≡ out.old.items ++ link_text refusal.now) }
{
    match refusal {
        LinkRefusal::DuplicateClass { class } => put_of_class(out, b"DuplicateClass", class),
        LinkRefusal::MissingSuper { class, super_class } => {
            put_of_super(out, b"MissingSuper", class, super_class)
        }
        LinkRefusal::SuperKind { class, super_class } => {
            put_of_super(out, b"SuperKind", class, super_class)
        }
        LinkRefusal::FinalSuper { class, super_class } => {
            put_of_super(out, b"FinalSuper", class, super_class)
        }
        LinkRefusal::CircularSuper { class } => put_of_class(out, b"CircularSuper", class),
        LinkRefusal::InterfaceCode { class } => put_of_class(out, b"InterfaceCode", class),
        LinkRefusal::OutOfMemory => put(out, b"OutOfMemory"),
    }
}

fn which_name(which: Which) -> &'static [u8]
    ensures { result.now ≡ which_text which }
{
    match which {
        Which::VolatileWords => b"VolatileWords",
        Which::ImageLines => b"ImageLines",
        Which::LogEntries => b"LogEntries",
        Which::Threads => b"Threads",
        Which::FrameSlots => b"FrameSlots",
        Which::Acts => b"Acts",
        Which::Monitors => b"Monitors",
        Which::DirectoryWords => b"DirectoryWords",
        Which::Roots => b"Roots",
        Which::Files => b"Files",
        Which::FileBytes => b"FileBytes",
    }
}

/// The name of the class of a throwable that requests throw.
pub(crate) fn class_name(class: Throws) -> &'static [u8]
    ensures name { result.now ≡ class_name class }
    ensures short { length result.now ≤ 64 }
{
    match class {
        Throws::NegativeArraySize => b"java/lang/NegativeArraySizeException",
        Throws::NullPointer => b"java/lang/NullPointerException",
        Throws::ArrayIndexOutOfBounds => b"java/lang/ArrayIndexOutOfBoundsException",
        Throws::StringIndexOutOfBounds => b"java/lang/StringIndexOutOfBoundsException",
        Throws::ArrayStore => b"java/lang/ArrayStoreException",
        Throws::ClassCast => b"java/lang/ClassCastException",
        Throws::IllegalMonitorState => b"java/lang/IllegalMonitorStateException",
        Throws::IllegalThreadState => b"java/lang/IllegalThreadStateException",
        Throws::IllegalState => b"java/lang/IllegalStateException",
        Throws::Arithmetic => b"java/lang/ArithmeticException",
    }
}

fn put_place(out: &mut Vec<u8>, place: Place) -> Result<(), AllocError>
    ensures { OnOk result (out.new.items ≡ out.old.items ++ place_text place) }
{
    match place {
        Place::Static(number) => put_with(out, b"static", u64::from(number)),
        Place::Slot { object, index } => {
            put_with_two(out, b"slot", u64::from(object), u64::from(index))
        }
    }
}

fn put_race(
    out: &mut Vec<u8>,
    thread: ThreadNo,
    other: ThreadNo,
    place: Place,
) -> Result<(), AllocError>
    ensures { OnOk result (out.new.items ≡ out.old.items
        ++ (with_numbers (codes "race") (thread ∷ other ∷ []) ++ codes " " ++ place_text place)) }
{
    put_with_two(
        out,
        b"race",
        u64::from(thread.number()),
        u64::from(other.number()),
    )?;
    put(out, b" ")?;
    put_place(out, place)
}

fn put_on(out: &mut Vec<u8>, on: On) -> Result<(), AllocError>
    ensures { OnOk result (out.new.items ≡ out.old.items ++ on_text on) }
{
    match on {
        On::Monitor(thread) => put_with(out, b"monitor", u64::from(thread.number())),
        On::Join(thread) => put_with(out, b"join", u64::from(thread.number())),
        On::Init(thread) => put_with(out, b"init", u64::from(thread.number())),
        On::Conversion(thread) => put_with(out, b"conversion", u64::from(thread.number())),
    }
}

// What a thread waits for, if it does, behind its number.
fn put_wait(out: &mut Vec<u8>, thread: ThreadNo, on: Option<On>) -> Result<(), AllocError>
    ensures { OnOk result (out.new.items ≡ out.old.items ++ wait_text thread on) }
{
    let Some(on) = on else {
        return Ok(());
    };
    put_number(out, u64::from(thread.number()))?;
    put(out, b" ")?;
    put_on(out, on)
}

// The thread of a number.
fn thread(number: u8) -> ThreadNo
    requires { number < 64 }
    ensures { result ≡ number }
{
    match ThreadNo::new(number) {
        Some(thread) => thread,
        None => ThreadNo::main(),
    }
}

// What each thread waits for that does.
fn put_waits(out: &mut Vec<u8>, waits: &Waits) -> Result<(), AllocError>
    ensures { OnOk result (out.new.items ≡ out.old.items ++ waits_text waits.now) }
{
    for number in 0..64 {
        let thread = thread(number);
        put_wait(out, thread, waits.get(thread))?;
    }
    Ok(())
}

fn kind_name(kind: LinkKind) -> &'static [u8]
    ensures { result.now ≡ kind_text kind }
{
    match kind {
        LinkKind::MissingClass => b"MissingClass",
        LinkKind::MissingField => b"MissingField",
        LinkKind::MissingMethod => b"MissingMethod",
        LinkKind::StaticMismatch => b"StaticMismatch",
        LinkKind::NoCode => b"NoCode",
        LinkKind::InitFailed => b"InitFailed",
    }
}

fn reason_name(reason: BadReason) -> &'static [u8]
    ensures { result.now ≡ reason_text reason }
{
    match reason {
        BadReason::Size => b"Size",
        BadReason::Magic => b"Magic",
        BadReason::Version => b"Version",
        BadReason::LineCount => b"LineCount",
        BadReason::DirectoryUse => b"DirectoryUse",
        BadReason::Entry => b"Entry",
        BadReason::LogCount => b"LogCount",
        BadReason::LogPlace => b"LogPlace",
        BadReason::Reference => b"Reference",
        BadReason::Shape => b"Shape",
        BadReason::Length => b"Length",
        BadReason::Overlap => b"Overlap",
        BadReason::Value => b"Value",
    }
}

fn new_name(reason: NewReason) -> &'static [u8]
    ensures { result.now ≡ new_text reason }
{
    match reason {
        NewReason::Size => b"Size",
        NewReason::NotBlank => b"NotBlank",
    }
}

fn listing_name(kind: ListingFault) -> &'static [u8]
    ensures { result.now ≡ listing_text kind }
{
    match kind {
        ListingFault::Syntax => b"Syntax",
        ListingFault::UnknownWord => b"UnknownWord",
        ListingFault::BadNumber => b"BadNumber",
        ListingFault::UnknownLabel => b"UnknownLabel",
        ListingFault::DoubledLabel => b"DoubledLabel",
        ListingFault::FarJump => b"FarJump",
        ListingFault::BadDescriptor => b"BadDescriptor",
        ListingFault::BadText => b"BadText",
        ListingFault::TooLarge => b"TooLarge",
        ListingFault::NoClass => b"NoClass",
    }
}

fn put_uncaught(out: &mut Vec<u8>, thread: ThreadNo, class: &Bytes) -> Result<(), AllocError>
    ensures { OnOk result (out.new.items ≡ out.old.items
        ++ (codes "uncaught" ++ spaced thread ++ codes " " ++ class.now)) }
{
    put_with(out, b"uncaught", u64::from(thread.number()))?;
    put(out, b" ")?;
    put(out, class.as_slice())
}

// What is wrong.
fn put_what(out: &mut Vec<u8>, status: &Status) -> Result<(), AllocError>
    ensures { OnOk result (out.new.items ≡ out.old.items ++ what_of status.now) }
{
    match status {
        Status::Ok => Ok(()),
        Status::Uncaught { thread, class } => put_uncaught(out, *thread, class),
        Status::Usage => put(out, b"usage"),
        Status::BadClass { file, refusal } => {
            put(out, b"class ")?;
            put(out, file.as_slice())?;
            put(out, b" ")?;
            put_class(out, *refusal)
        }
        Status::BadListing { line, kind } => {
            put_with(out, b"listing", u64::from(*line))?;
            put(out, b" ")?;
            put(out, listing_name(*kind))
        }
        Status::BadImage { line, reason } => {
            put_with(out, b"image", u64::from(*line))?;
            put(out, b" ")?;
            put(out, reason_name(*reason))
        }
        Status::LinkRefused { refusal } => {
            put(out, b"refused ")?;
            put_link(out, refusal)
        }
        Status::ShapeChanged { shape } => {
            put(out, b"shape ")?;
            put(out, shape.as_slice())
        }
        Status::BadCode { method, pc } => {
            put(out, b"code ")?;
            put_with(out, method.as_slice(), u64::from(*pc))
        }
        Status::RegionRace {
            thread,
            other,
            place,
        } => put_race(out, *thread, *other, *place),
        Status::Full(full) => {
            put(out, b"full ")?;
            put_with_two(out, which_name(full.which), full.need, full.left)
        }
        Status::SourceFault => put(out, b"source fault"),
        Status::ImageFault => put(out, b"image fault"),
        Status::SinkFault => put(out, b"sink fault"),
        Status::OutOfMemory => put(out, b"no memory"),
        Status::Stuck(waits) => {
            put(out, b"stuck")?;
            put_waits(out, waits)
        }
        Status::LinkFault { kind, name } => {
            put(out, b"link ")?;
            put_of_class(out, kind_name(*kind), name)
        }
        Status::NewImage { reason } => {
            put(out, b"new ")?;
            put(out, new_name(*reason))
        }
        Status::BadHistory { word } => put_with(out, b"history", *word),
        Status::Refuted => put(out, b"refuted"),
    }
}

/// The line that the program prints of a status on standard error. There is none for `Ok`.
pub fn status_text(alloc: Global, status: &Status) -> Result<Vec<u8>, AllocError>
    ensures text { IfOk result (λ text. text.items ≡ text_of status.now) }
{
    let mut out = Vec::new(alloc);
    if let Status::Ok = status {
        return Ok(out);
    }
    put(&mut out, b"autopersist: ")?;
    put_what(&mut out, status)?;
    put(&mut out, b"\n")?;
    Ok(out)
}
