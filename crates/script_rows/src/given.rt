// Files that a source gives.
use crate::script::Given;
use crate::texts::{Text, joined};
use ap_base::{Bytes, MemorySource, NamedBytes};
use run_fixture::{file, listed_classes};
use std::alloc::{AllocError, Global};
use std::mem::replace;

/// The files that a source gives to the next command, and the number of its call that fails.
#[derive(Drop)]
pub(crate) struct Files {
    files: Vec<NamedBytes>,
    fails: u64,
}

impl Files {
    pub(crate) fn none(alloc: Global) -> Files {
        Files {
            files: Vec::new(alloc),
            fails: u64::MAX,
        }
    }

    /// Adds a file of these bytes.
    pub(crate) fn add(&mut self, alloc: Global, bytes: &[u8]) -> Result<(), AllocError> {
        push_bytes(alloc, &mut self.files, bytes, 1)
    }

    /// The source's call of this number fails.
    pub(crate) fn fail_at(&mut self, call: u64) {
        self.fails = call;
    }
}

/// A source of the files, of which none are kept.
pub(crate) fn source_of(alloc: Global, all: &mut Files) -> Result<MemorySource, AllocError> {
    let fails = [all.fails].to_vec(alloc)?;
    let files = replace(&mut all.files, Vec::new(alloc));
    all.fails = u64::MAX;
    Ok(MemorySource::new(files, fails))
}

/// A file of which so many zeros were read.
fn zeros(alloc: Global, count: u64, size: u64) -> Result<NamedBytes, AllocError> {
    let name = Bytes::copy(alloc, b"A.class")?;
    let bytes = Bytes::from_vec(Vec::from_elem(alloc, 0_u8, count as usize)?);
    Ok(NamedBytes::read_so_far(name, bytes, size))
}

/// The bytes whose hexadecimal digits stand in a text, two for each; as far as they are such.
fn bytes_of(alloc: Global, digits: &str) -> Result<Vec<u8>, AllocError> {
    let mut bytes = Vec::new(alloc);
    for pair in digits.split_ascii_whitespace() {
        if let Ok(byte) = u8::from_str_radix(pair, 16) {
            bytes.push(byte)?;
        }
    }
    Ok(bytes)
}

fn push_bytes(
    alloc: Global,
    files: &mut Vec<NamedBytes>,
    bytes: &[u8],
    times: u64,
) -> Result<(), AllocError> {
    for _ in 0..times {
        files.push(file(alloc, b"A.class", bytes)?)?;
    }
    Ok(())
}

/// Adds the classes of a listing, a file each; none where it is no listing.
fn push_listed(
    alloc: Global,
    files: &mut Vec<NamedBytes>,
    listing: &str,
) -> Result<(), AllocError> {
    let Some(classes) = listed_classes(alloc, listing.as_bytes())? else {
        return Ok(());
    };
    for bytes in &classes {
        files.push(file(alloc, b"A.class", bytes.as_slice())?)?;
    }
    Ok(())
}

/// Adds what is given of texts.
fn push_texts(
    alloc: Global,
    files: &mut Vec<NamedBytes>,
    texts: &[Text],
    given: Given<'_>,
) -> Result<(), AllocError> {
    match given {
        Given::Listed(names) => {
            let listing = joined(alloc, texts, names)?;
            push_listed(alloc, files, listing.as_str())
        }
        Given::Plain(names) | Given::Record(names) => {
            let text = joined(alloc, texts, names)?;
            push_bytes(alloc, files, text.as_bytes(), 1)
        }
        Given::Bytes {
            texts: names,
            times,
        } => {
            let digits = joined(alloc, texts, names)?;
            let bytes = bytes_of(alloc, digits.as_str())?;
            push_bytes(alloc, files, bytes.as_slice(), times)
        }
        _ => Ok(()),
    }
}

/// Adds what is given to a source; the history is this one.
pub(crate) fn push(
    alloc: Global,
    all: &mut Files,
    texts: &[Text],
    history: &[u8],
    given: Given<'_>,
) -> Result<(), AllocError> {
    match given {
        Given::History => push_bytes(alloc, &mut all.files, history, 1),
        Given::Zeros { count, size } => {
            all.files.push(zeros(alloc, count, size)?)?;
            Ok(())
        }
        _ => push_texts(alloc, &mut all.files, texts, given),
    }
}
