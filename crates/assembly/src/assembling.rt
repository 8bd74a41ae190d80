// A class of a listing is assembled and put.
ghost use Rattle.std.specs.Prelude.{◌≡◌, ◌≢◌, All, Some, IfErr};
ghost use Rattle.std.specs.Option.{option_map};
ghost use Rattle.ap_base.specs.Causes.{Rose, next_count};
ghost use Rattle.class_file.specs.Classes.{CanBeRead};
ghost use Rattle.source_classes.specs.Names.{slashed};
ghost use Rattle.parsing.specs.Results.{Gives};
ghost use Rattle.assembly.specs.Assembling.{Assembles, IsOfAssembly, IsOfListing, bytes_of, class_in, class_of, named_class, status_of};

use ap_base::{ClassSource, MOST_BYTES, NamedBytes, Sink, SourceError};
use class_file::{ClassFile, write_class};
use class_links::name_of;
use listing::{ListingError, assemble};
use listing_lines::ListingFault;
use put_bytes::put_all;
use run_types::{Full, Which};
use source_classes::internal_name;
use statuses::Status;
use std::alloc::Global;

// The first of the classes that has this name.
fn named_class<'a>(classes: &'a [ClassFile], name: &[u8]) -> Option<&'a ClassFile>
    ensures { option_map (λ class. class.now) result ≡ named_class name.now classes.now }
{
    for class in classes {
        if name_of(class) == name {
            return Some(class);
        }
    }
    None
}

fn of_error(error: ListingError) -> Status
    ensures is { result ≡ status_of error }
    ensures of { IsOfListing result }
{
    match error {
        ListingError::Fault { line, kind } => Status::BadListing { line, kind },
        ListingError::OutOfMemory => Status::OutOfMemory,
    }
}

// The bytes of the class of this name of these classes.
fn bytes_among(alloc: Global, class: &[u8], classes: &[ClassFile]) -> Result<Vec<u8>, Status>
    requires readable { All CanBeRead classes.now }
    ensures bytes { Gives (Some Status.OutOfMemory) (λ bytes. bytes.items) result
        (bytes_of (named_class (slashed class.now) classes.now)) }
    ensures of { IfErr result IsOfListing }
{
    let Ok(name) = internal_name(alloc, class) else {
        return Err(Status::OutOfMemory);
    };
    let Some(found) = named_class(classes, name.as_slice()) else {
        return Err(Status::BadListing {
            line: 0,
            kind: ListingFault::NoClass,
        });
    };
    match write_class(alloc, found) {
        Ok(bytes) => Ok(bytes),
        Err(_) => Err(Status::OutOfMemory),
    }
}

// The bytes of the class of this name of a listing.
#[tactic(auto, unfolding(crate::specs::Assembling::class_in))]
fn class_in(alloc: Global, class: &[u8], text: &[u8]) -> Result<Vec<u8>, Status>
    ensures bytes { Gives (Some Status.OutOfMemory) (λ bytes. bytes.items) result
        (class_in class.now text.now) }
    ensures of { IfErr result IsOfListing }
{
    match assemble(alloc, text) {
        Ok(classes) => bytes_among(alloc, class, classes.as_slice()),
        Err(error) => Err(of_error(error)),
    }
}

// The bytes of the class of this name of a file's listing.
fn class_of(alloc: Global, class: &[u8], file: Option<NamedBytes>) -> Result<Vec<u8>, Status>
    ensures bytes { Gives (Some Status.OutOfMemory) (λ bytes. bytes.items) result
        (class_of class.now file) }
    ensures of { IfErr result IsOfListing }
{
    let Some(file) = file else {
        return class_in(alloc, class, &[]);
    };
    if file.size > MOST_BYTES as u64 {
        return Err(Status::Full(Full {
            which: Which::FileBytes,
            need: file.size,
            left: MOST_BYTES as u64,
        }));
    }
    class_in(alloc, class, file.bytes.as_slice())
}

/// Asks the source once for a listing, and puts the bytes of its class of this name into the sink. No file is an empty listing,
/// and a dot in the name counts as a slash. The answer is `Ok` exactly where all bytes were put.
///
/// # Errors
///
/// `SourceFault` and `SinkFault` only where the count of faults of the source, or of the sink, rose; `Full` exactly where the file has more
/// bytes than a file may; `BadListing` exactly where the text is no listing, or has no class of the name. `OutOfMemory` may stand in place
/// of any answer. Nothing was put but before `Ok` and `SinkFault`.
pub fn put_class_of<C: ClassSource, S: Sink>(
    alloc: Global,
    class: &[u8],
    source: &mut C,
    sink: &mut S,
) -> Status
    ensures assembles { Assembles class.now (C.left source.old) (C.left source.new) result
        (S.taken sink.old) (S.taken sink.new) }
    ensures of { IsOfAssembly result }
    ensures source_fault { result ≡ Status.SourceFault → Rose (C.faults source.old) (C.faults source.new) }
    ensures sink_fault { result ≡ Status.SinkFault → S.faults sink.new ≡ next_count (S.faults sink.old) }
    ensures sink_spared { result ≢ Status.SinkFault → S.faults sink.new ≡ S.faults sink.old }
{
    let file = match source.next(alloc) {
        Ok(file) => file,
        Err(SourceError::Failed) => return Status::SourceFault,
        Err(SourceError::OutOfMemory) => return Status::OutOfMemory,
    };
    match class_of(alloc, class, file) {
        Ok(bytes) => match put_all(sink, bytes.as_slice()) {
            Ok(()) => Status::Ok,
            Err(_) => Status::SinkFault,
        },
        Err(status) => status,
    }
}
