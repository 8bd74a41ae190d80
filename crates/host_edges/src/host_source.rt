// The class files of a folder, one file, or the records of a run.
ghost use Rattle.std.specs.Prelude.{◌≡◌, ◌≤◌, ◌<◌, ◌^◌, None, IfOk, OnErr, IsErrOf};

use ap_base::{Bytes, ClassSource, MOST_BYTES, NamedBytes, SourceError};
use std::alloc::{AllocError, Global};
use std::io::{BufRead, BufReader, Read};
use std::rt::Files;
use std::{fs, io, str};

// One byte more than a class file may have: what follows isn't needed to refuse a file.
const MOST_READ: u64 = MOST_BYTES as u64 + 1;

// What of a folder's list is read at once; enough for the longest name.
const LIST_BYTES: usize = 4_096;

/// Files of the host: those of a folder whose names end in `.class`, in the order of their names' bytes, or those of one or two
/// paths. It tells nothing.
///
/// A folder that couldn't be listed fails at every call, and so does a file that isn't a regular one, or whose name isn't text;
/// where there was no memory for it, each call answers that.
#[derive(Drop)]
pub struct HostSource<R> {
    rt: R,
    // none where the names are paths
    folder: Option<String>,
    // the last one first
    names: Vec<Vec<u8>>,
    // how many bytes of a file are read at most
    most: u64,
    broken: Option<SourceError>,
    faults: u64,
    ghost fits: { faults < 2 ^ 64 },
}

fn error_of(error: &io::Error) -> SourceError {
    if error.kind() == io::ErrorKind::OutOfMemory {
        SourceError::OutOfMemory
    } else {
        SourceError::Failed
    }
}

// The slash makes the system follow a link to a folder.
fn with_slash(alloc: Global, folder: &str) -> Result<String, AllocError> {
    let mut path = String::from_str(alloc, folder)?;
    if !folder.is_empty() {
        path.push('/')?;
    }
    Ok(path)
}

/// The names that end in `.class`, the last one first. A list reads as its names, each ended by a 0; not all of them need be text.
pub fn class_names<D: Read + Drop>(alloc: Global, list: D) -> io::Result<Vec<Vec<u8>>> {
    let mut names = Vec::new(alloc);
    for name in BufReader::with_capacity(alloc, LIST_BYTES, list)?.split(alloc, 0) {
        let name = name?;
        if name.as_slice().ends_with(b".class") {
            names.push(name)?;
        }
    }
    names.sort()?;
    names.reverse();
    Ok(names)
}

fn list(rt: &impl Files, alloc: Global, folder: &str) -> io::Result<Vec<Vec<u8>>> {
    let path = with_slash(alloc, folder)?;
    class_names(alloc, rt.open_dir(path.as_str())?)
}

// The last one first.
fn paths(alloc: Global, paths: &[&str]) -> Result<Vec<Vec<u8>>, AllocError> {
    let mut names = Vec::new(alloc);
    for path in paths.iter().rev() {
        names.push(path.as_bytes().to_vec(alloc)?)?;
    }
    Ok(names)
}

// What isn't a regular file isn't opened: a pipe would wait for its writer.
fn read_file(
    rt: &impl Files,
    alloc: Global,
    path: &str,
    name: &[u8],
    most: u64,
) -> io::Result<NamedBytes> {
    let metadata = fs::metadata(rt, path)?;
    if !metadata.is_file() {
        return Err(io::Error::from(io::ErrorKind::InvalidInput));
    }
    let mut bytes = Vec::new(alloc);
    fs::open(rt, path)?.take(most).read_to_end(&mut bytes)?;
    let name = Bytes::copy(alloc, name)?;
    Ok(NamedBytes::read_so_far(name, Bytes::from_vec(bytes), metadata.len()))
}

impl<R: Files + Drop> HostSource<R> {
    /// The files of a folder whose names end in `.class`; it is listed now.
    pub fn folder(rt: R, alloc: Global, path: &str) -> HostSource<R> {
        let listed = list(&rt, alloc, path);
        match (listed, String::from_str(alloc, path)) {
            (Ok(names), Ok(folder)) => HostSource::with(rt, Some(folder), names, MOST_READ),
            (Err(error), _) => HostSource::broken(rt, alloc, error_of(&error)),
            (_, Err(_)) => HostSource::broken(rt, alloc, SourceError::OutOfMemory),
        }
    }

    /// One file, which is named as its path is written. It is read as it is asked for.
    pub fn file(rt: R, alloc: Global, path: &str) -> HostSource<R> {
        match paths(alloc, &[path]) {
            Ok(names) => HostSource::with(rt, None, names, MOST_READ),
            Err(_) => HostSource::broken(rt, alloc, SourceError::OutOfMemory),
        }
    }

    /// The records of a run: its history and then what it printed, each read whole as it is asked for.
    pub fn records(rt: R, alloc: Global, history: &str, output: &str) -> HostSource<R> {
        match paths(alloc, &[history, output]) {
            Ok(names) => HostSource::with(rt, None, names, u64::MAX),
            Err(_) => HostSource::broken(rt, alloc, SourceError::OutOfMemory),
        }
    }

    fn with(rt: R, folder: Option<String>, names: Vec<Vec<u8>>, most: u64) -> HostSource<R> {
        HostSource {
            rt,
            folder,
            names,
            most,
            broken: None,
            faults: 0,
        }
    }

    // One whose every call answers this.
    fn broken(rt: R, alloc: Global, error: SourceError) -> HostSource<R> {
        HostSource {
            rt,
            folder: None,
            names: Vec::new(alloc),
            most: MOST_READ,
            broken: Some(error),
            faults: 0,
        }
    }

    // The file of the next name, which stays there.
    fn next_file(&self, alloc: Global) -> Result<Option<NamedBytes>, SourceError> {
        if let Some(error) = self.broken {
            return Err(error);
        }
        let Some(name) = self.names.last() else {
            return Ok(None);
        };
        match self.read(alloc, name.as_slice()) {
            Ok(file) => Ok(Some(file)),
            Err(error) => Err(error_of(&error)),
        }
    }

    fn read(&self, alloc: Global, name: &[u8]) -> io::Result<NamedBytes> {
        let path = self.path_of(alloc, name)?;
        read_file(&self.rt, alloc, path.as_str(), name, self.most)
    }

    fn path_of(&self, alloc: Global, name: &[u8]) -> io::Result<String> {
        let Ok(name) = str::from_utf8(name) else {
            return Err(io::Error::from(io::ErrorKind::InvalidFilename));
        };
        let path = match &self.folder {
            Some(folder) => format!(in alloc; "{}/{name}", folder.as_str())?,
            None => String::from_str(alloc, name)?,
        };
        Ok(path)
    }
}

impl<R: Files + Drop> ClassSource for HostSource<R> {
    ghost use Rattle.std.specs.Prelude.{None};

    ghost faults = { λ f. f.faults };

    ghost left = { λ _. None };

    fn next(&mut self, alloc: Global) -> Result<Option<NamedBytes>, SourceError> {
        let read = self.next_file(alloc);
        match read {
            Ok(file) => {
                let _read = self.names.pop();
                Ok(file)
            }
            Err(error) => {
                self.faults = self.faults.saturating_add(1);
                Err(error)
            }
        }
    }
}
