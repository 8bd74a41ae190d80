// The files of a source, read and checked one by one.
ghost use Rattle.std.specs.Prelude.{◌≡◌, ◌≢◌, ◌⊎◌, ◌≤◌, List, [], Some, OnOk, OnErr, IfOk, IfErr, IsErrOf, Ok};
ghost use Rattle.std.specs.Prelude.{Err};
ghost use Rattle.ap_base.specs.Causes.{Rose};
ghost use Rattle.ap_base.specs.Sources as given;
ghost use Rattle.ap_base.specs.declared.source.NamedBytes.{NamedBytes as File};
ghost use Rattle.class_file.specs.Classes.{CanBeRead, HasAtMost};
ghost use Rattle.source_classes.specs.Files.{class_of};
ghost use Rattle.source_classes.specs.Reading.{IsReadAs, HasNoCause, IsOfFiles, FilesComeTo, IsLeft};

use crate::accepted::AcceptedFiles;
use ap_base::{Bytes, ClassSource, MOST_BYTES, NamedBytes, SourceError};
use class_file::{ClassFile, ClassRefusal, read_class};
use run_types::{Full, Which};
use statuses::Status;
use std::alloc::Global;

// A source has at most so many files.
const MOST_FILES: u32 = 4_096;

// The class of a file.
#[tactic(auto, unfolding(crate::specs::Files::class_of))]
fn class_of(alloc: Global, file: NamedBytes) -> Result<ClassFile, Status>
    ensures class { IsReadAs (λ class. class) result (class_of file) }
    ensures readable { IfOk result CanBeRead }
    ensures small { IfOk result (HasAtMost 1048576) }
    ensures files { IfErr result IsOfFiles }
    ensures no_source { IfErr result (λ s. s ≢ Status.SourceFault) }
{
    if file.size > MOST_BYTES as u64 {
        return Err(Status::Full(Full {
            which: Which::FileBytes,
            need: file.size,
            left: MOST_BYTES as u64,
        }));
    }
    match read_class(alloc, file.bytes.as_slice()) {
        Ok(class) => Ok(class),
        Err(ClassRefusal::OutOfMemory) => Err(Status::OutOfMemory),
        Err(refusal) => Err(Status::BadClass {
            file: file.name,
            refusal,
        }),
    }
}

fn status_of(error: SourceError) -> Status
    ensures failed { result ≡ Status.SourceFault → error ≡ SourceError.Failed }
    ensures free { HasNoCause result }
    ensures files { IsOfFiles result }
{
    match error {
        SourceError::Failed => Status::SourceFault,
        SourceError::OutOfMemory => Status::OutOfMemory,
    }
}

// The next file.
fn next_file<C: ClassSource>(alloc: Global, source: &mut C) -> Result<Option<NamedBytes>, Status>
    ensures file { IfOk result (λ file. given.Gives (C.left source.old) file (C.left source.new)) }
    ensures kept { OnErr result (C.left source.new ≡ C.left source.old) }
    ensures free { IfErr result HasNoCause }
    ensures files { IfErr result IsOfFiles }
    ensures later { C.faults source.old ≤ C.faults source.new }
    ensures cause { IsErrOf result Status.SourceFault
        → Rose (C.faults source.old) (C.faults source.new) }
{
    match source.next(alloc) {
        Ok(file) => Ok(file),
        Err(error) => Err(status_of(error)),
    }
}

/// The classes of the files that the source has left, read to its end.
///
/// # Errors
///
/// `BadClass` or `Full` exactly where the first file that is refused, of as many as a source may have, or their number, comes to that;
/// `SourceFault` only where the source's count of faults rose; want of memory. No file is read behind one that is refused.
pub fn read_files<C: ClassSource>(alloc: Global, source: &mut C) -> Result<AcceptedFiles, Status>
    ensures classes { IfOk result (λ classes.
        FilesComeTo (C.left source.old) (Ok classes)) }
    ensures refused { IfErr result (λ s. HasNoCause s ⊎ FilesComeTo (C.left source.old) (Err s)) }
    ensures whole { OnOk result ((files : List File) → C.left source.old ≡ Some files
        → C.left source.new ≡ Some []) }
    ensures left { IfErr result (λ s. (files : List File) → C.left source.old ≡ Some files
        → IsLeft files s (C.left source.new)) }
    ensures files { IfErr result IsOfFiles }
    ensures later { C.faults source.old ≤ C.faults source.new }
    ensures cause { IsErrOf result Status.SourceFault
        → Rose (C.faults source.old) (C.faults source.new) }
{
    let mut classes = Vec::new(alloc);
    for _ in 0..MOST_FILES {
        let Some(file) = next_file(alloc, source)? else {
            return Ok(AcceptedFiles::of(classes));
        };
        let class = class_of(alloc, file)?;
        if classes.push(class).is_err() {
            return Err(Status::OutOfMemory);
        }
    }
    match next_file(alloc, source)? {
        None => Ok(AcceptedFiles::of(classes)),
        Some(_) => Err(Status::Full(Full {
            which: Which::Files,
            need: 1,
            left: 0,
        })),
    }
}
