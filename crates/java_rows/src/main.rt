//! Runs each of the Java programs of the folder it stands in, and prints what each prints and how it ends.
#![tactic(auto)]

use ap_base::{ClassSource, MemorySink, NoGate};
use autopersist::{Ended, autopersist, status_text};
use host_edges::HostSource;
use line_image::{Fails, MemoryImage};
use run_history::NoWatch;
use std::alloc::{AllocError, Global};
use std::fs;
use std::io::{self, Write};
use std::sync::Wait;
use std::thread::Threads;

/// The lines of an image.
const LINES: u64 = 32_768;

/// How many bytes of a program's output are kept.
const ROOM: u64 = 65_536;

type Run<C> = Ended<C, MemoryImage, MemorySink, NoWatch>;

/// An image of zeros that doesn't fail.
fn blank(alloc: Global) -> Result<MemoryImage, AllocError> {
    let fails = Fails {
        calls: Vec::new(alloc),
        since: u64::MAX,
        room: 20_000,
    };
    MemoryImage::new(alloc, LINES, fails)
}

/// The words that ask for a class of a folder.
fn words(alloc: Global, class: &str, folder: &str) -> Result<Vec<String>, AllocError> {
    let mut words = Vec::new(alloc);
    for word in [
        "autopersist",
        "run",
        "--image",
        "work.img",
        "--main",
        class,
        folder,
    ] {
        words.push(String::from_str(alloc, word)?)?;
    }
    Ok(words)
}

/// Runs a class of a folder, whose files the source gives, on a blank image.
fn run<R, C>(rt: &R, alloc: Global, class: &str, folder: &str, source: C) -> io::Result<Run<C>>
where
    R: Threads + Wait + Clone + Send + Sync + Drop,
    C: ClassSource,
{
    let words = words(alloc, class, folder)?;
    let sink = MemorySink::new(alloc, ROOM, 24, Vec::new(alloc))?;
    Ok(autopersist(
        rt,
        alloc,
        &words,
        source,
        blank(alloc)?,
        sink,
        &NoGate,
        NoWatch,
    ))
}

/// Prints what a run printed, and its status with the line where that isn't 0.
fn tell<W: Write, C: Drop>(alloc: Global, out: &mut W, ended: &Run<C>) -> io::Result<()> {
    out.write_all(ended.sink.as_slice())?;
    let line = status_text(alloc, &ended.status)?;
    if !line.is_empty() {
        let number = format!(in alloc; "{} ", ended.status.number())?;
        out.write_all(number.as_bytes())?;
        out.write_all(line.as_slice())?;
    }
    Ok(())
}

/// The file `programs` has a line for each: its folder and its main class.
fn main(rt: HostRuntime) -> io::Result<()> {
    let mut out = rt.stdout();
    for line in fs::read_to_string(&rt, "programs")?.lines() {
        if let Some((folder, class)) = line.split_once(' ') {
            println!(rt; "== {folder}")?;
            let source = HostSource::folder(rt, rt.alloc(), folder);
            let ended = run(&rt, rt.alloc(), class, folder, source)?;
            tell(rt.alloc(), &mut out, &ended)?;
        }
    }
    Ok(())
}
