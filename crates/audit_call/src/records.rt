// The records of a run, and the line of the verdict about it.
ghost use Rattle.std.specs.Prelude.{◌≡◌, ◌≢◌, ◌⊎◌, ◌≤◌, ◌++◌, decimal, codes, IfOk, IfErr, OnOk, IsErrOf, Ok, Err};
ghost use Rattle.ap_base.specs.Causes.{Rose, next_count};
ghost use Rattle.audit_call.specs.Late.{IsLate};
ghost use Rattle.audit_call.specs.Printing as printed;
ghost use Rattle.audit_call.specs.Records as recorded;

use ap_base::{Bytes, ClassSource, NamedBytes, Sink, SourceError};
use audit_runs::Verdict;
use put_bytes::{put_all, put_decimal, put_text};
use run_types::{Full, Which};
use statuses::Status;
use std::alloc::{AllocError, Global};

/// The records of a run, as bytes.
#[derive(Drop)]
pub(crate) struct Records {
    pub(crate) history: Bytes,
    pub(crate) output: Bytes,
}

/// The bytes of a record: none where it is missing.
///
/// # Errors
///
/// `Full` exactly where the source gave a front of it alone.
fn record_in(alloc: Global, file: Option<NamedBytes>) -> Result<Bytes, Status>
    ensures is { result ≡ recorded.record_in file }
    ensures late { IfErr result IsLate }
    ensures no_image { IfErr result (λ s. s ≢ Status.ImageFault) }
    ensures no_source { IfErr result (λ s. s ≢ Status.SourceFault) }
{
    let Some(file) = file else {
        return Ok(Bytes::from_vec(Vec::new(alloc)));
    };
    let given = file.bytes.as_slice().len() as u64;
    if given < file.size {
        return Err(Status::Full(Full {
            which: Which::FileBytes,
            need: file.size,
            left: given,
        }));
    }
    Ok(file.bytes)
}

/// The next record.
fn next_record<R: ClassSource>(alloc: Global, records: &mut R) -> Result<Bytes, Status>
    ensures given { IfOk result (λ bytes. recorded.GivesRecord (R.left records.old) (R.left records.new) (Ok bytes)) }
    ensures unread { IfErr result (recorded.IsUnread (R.left records.old) (R.left records.new)) }
    ensures late { IfErr result IsLate }
    ensures no_image { IfErr result (λ s. s ≢ Status.ImageFault) }
    ensures later { R.faults records.old ≤ R.faults records.new }
    ensures cause { IsErrOf result Status.SourceFault → Rose (R.faults records.old) (R.faults records.new) }
{
    match records.next(alloc) {
        Ok(file) => record_in(alloc, file),
        Err(SourceError::Failed) => Err(Status::SourceFault),
        Err(SourceError::OutOfMemory) => Err(Status::OutOfMemory),
    }
}

/// The history and the output of a run, which their source gives in this order.
///
/// # Errors
///
/// `SourceFault` only where the source's count of faults rose; `Full` exactly where it gave a front of a record alone, of the first such
/// one; want of memory.
pub(crate) fn read_records<R: ClassSource>(
    alloc: Global,
    records: &mut R,
) -> Result<Records, Status>
    ensures both { IfOk result (recorded.GivesBoth (R.left records.old) (R.left records.new)) }
    ensures lacks { IfErr result (recorded.LacksRecord (R.left records.old) (R.left records.new)) }
    ensures late { IfErr result IsLate }
    ensures no_image { IfErr result (λ s. s ≢ Status.ImageFault) }
    ensures cause { IsErrOf result Status.SourceFault → Rose (R.faults records.old) (R.faults records.new) }
{
    let history = next_record(alloc, records)?;
    let output = next_record(alloc, records)?;
    Ok(Records { history, output })
}

/// The status of a verdict: each but Yes refutes the run.
fn status_of(verdict: Verdict) -> Status
    ensures { result ≡ printed.status_of verdict }
{
    match verdict {
        Verdict::Yes => Status::Ok,
        Verdict::Act(_) | Verdict::Output | Verdict::Image => Status::Refuted,
    }
}

/// Puts the line about an act.
fn put_act(out: &mut Vec<u8>, act: u32) -> Result<(), AllocError>
    ensures { OnOk result (out.new.items ≡ out.old.items ++ (codes "no act " ++ decimal act ++ codes "\n")) }
{
    put_text(out, b"no act ")?;
    put_decimal(out, u64::from(act))?;
    put_text(out, b"\n")
}

/// Puts the line that is printed of a verdict.
fn put_line(out: &mut Vec<u8>, verdict: Verdict) -> Result<(), AllocError>
    ensures { OnOk result (out.new.items ≡ out.old.items ++ printed.verdict_line verdict) }
{
    match verdict {
        Verdict::Yes => put_text(out, b"yes\n"),
        Verdict::Act(act) => put_act(out, act),
        Verdict::Output => put_text(out, b"no output\n"),
        Verdict::Image => put_text(out, b"no image\n"),
    }
}

/// The line that is printed of a verdict.
fn verdict_line(alloc: Global, verdict: Verdict) -> Result<Vec<u8>, AllocError>
    ensures { IfOk result (λ line. line.items ≡ printed.verdict_line verdict) }
{
    let mut line = Vec::new(alloc);
    put_line(&mut line, verdict)?;
    Ok(line)
}

/// Puts the line of a verdict into the sink, once it is whole, and answers the verdict's status.
///
/// # Errors
///
/// `SinkFault` exactly where the sink failed, once; a front of the line was put then. `OutOfMemory` with nothing put.
pub(crate) fn put_verdict<S: Sink>(alloc: Global, verdict: Verdict, sink: &mut S) -> Status
    ensures put { printed.IsPut verdict result (S.taken sink.old) (S.taken sink.new)
        ⊎ ((result ≡ Status.OutOfMemory) × (S.taken sink.new ≡ S.taken sink.old)) }
    ensures late { IsLate result }
    ensures no_image { result ≢ Status.ImageFault }
    ensures no_source { result ≢ Status.SourceFault }
    ensures sink_fault { result ≡ Status.SinkFault → S.faults sink.new ≡ next_count (S.faults sink.old) }
    ensures sink_spared { result ≢ Status.SinkFault → S.faults sink.new ≡ S.faults sink.old }
{
    let Ok(line) = verdict_line(alloc, verdict) else {
        return Status::OutOfMemory;
    };
    match put_all(sink, line.as_slice()) {
        Ok(()) => status_of(verdict),
        Err(_) => Status::SinkFault,
    }
}
