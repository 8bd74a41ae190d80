// The commands of the top call.
ghost use Rattle.std.specs.Prelude.{◌≡◌, ◌≢◌, Err, IsOk};

use ap_base::NoGate;
use autopersist::{Command, Ended, SaveFault, Saved, Status, autopersist, run_and_save};
use command_words::{Run, Text};
use host_edges::{FileImage, FileSink, HostSource, OutSink, Trouble};
use line_image::Image;
use mirror_image::{Mirror, MirrorFault};
use run_history::NoWatch;
use std::alloc::AllocError;
use std::fs::File;
use std::rt::Files;
use std::sync::Wait;
use std::thread::Threads;

// Where class files, or a listing, are.
#[derive(Clone, Copy)]
enum SourcePath<'a> {
    Folder(&'a str),
    File(&'a str),
}

// What a command needs of the host: an image file, of so many lines where it isn't there, maybe its mirror, a source, and a file for
// the history.
#[derive(Clone, Copy)]
struct Paths<'a> {
    image: &'a str,
    mirror: Option<&'a str>,
    lines: Option<u32>,
    source: SourcePath<'a>,
    history: Option<&'a str>,
}

// An image alone.
fn of_image<'a>(image: &'a str, mirror: &'a Option<Text>, lines: Option<u32>) -> Paths<'a> {
    Paths {
        image,
        mirror: path_of(mirror),
        lines,
        source: SourcePath::Folder(""),
        history: None,
    }
}

fn path_of(path: &Option<Text>) -> Option<&str> {
    path.as_ref().map(|path| path.as_str())
}

fn of_run(run: &Run) -> Paths<'_> {
    Paths {
        image: run.image.as_str(),
        mirror: path_of(&run.mirror),
        lines: Some(run.lines),
        source: SourcePath::Folder(run.folder.as_str()),
        history: path_of(&run.history),
    }
}

fn of_source(source: SourcePath<'_>) -> Paths<'_> {
    Paths {
        image: "",
        mirror: None,
        lines: None,
        source,
        history: None,
    }
}

// Without a command nothing is opened.
fn paths_of(command: Option<&Command>) -> Paths<'_> {
    match command {
        Some(Command::Run(run)) => of_run(run),
        Some(Command::Make(make)) => {
            of_image(make.image.as_str(), &make.mirror, Some(make.lines))
        }
        Some(Command::Check(check)) => of_image(check.image.as_str(), &check.mirror, None),
        Some(Command::Dump(dump)) => of_image(dump.image.as_str(), &dump.mirror, None),
        Some(Command::Asm(asm)) => of_source(SourcePath::File(asm.listing.as_str())),
        Some(Command::Compact(_) | Command::Audit(_)) | None => of_source(SourcePath::Folder("")),
    }
}

/// How a command of the top call ended, and why its files can't serve, as far as the host told it.
#[derive(Drop)]
pub(crate) struct Done {
    pub(crate) status: Status,
    pub(crate) image: Option<Trouble>,
    pub(crate) mirror: Option<Trouble>,
    pub(crate) unpaired: Option<MirrorFault>,
    pub(crate) history: Option<Trouble>,
    pub(crate) unsaved: bool,
}

fn source_of<R: Files + AllocGlobal + Drop>(rt: R, path: SourcePath<'_>) -> HostSource<R> {
    let alloc = rt.alloc();
    match path {
        SourcePath::Folder(folder) => HostSource::folder(rt, alloc, folder),
        SourcePath::File(file) => HostSource::file(rt, alloc, file),
    }
}

// How the call ended, with the image that it was given.
#[derive(Drop)]
struct Ran<I> {
    status: Status,
    image: I,
    history: Option<Trouble>,
    unsaved: bool,
}

fn run_alone<R, I>(rt: &R, words: &Vec<String>, source: SourcePath<'_>, image: I) -> Ran<I>
where
    R: Threads + Wait + Files<File = File> + Print + AllocGlobal + Copy + Send + Sync + Drop,
    I: Image + Send + Drop,
{
    let ended = autopersist(
        rt,
        rt.alloc(),
        words,
        source_of(*rt, source),
        image,
        OutSink::new(*rt),
        &NoGate,
        NoWatch,
    );
    Ran {
        status: ended.status,
        image: ended.image,
        history: None,
        unsaved: false,
    }
}

// A history that can't be saved is the status of a run that has no other.
fn of_saving(status: Status, saved: Result<(), SaveFault>) -> Status
    ensures other { status ≢ Status.Ok → result ≡ status }
    ensures saved { IsOk saved → result ≡ status }
    ensures sink { status ≡ Status.Ok → saved ≡ Err SaveFault.SinkFault → result ≡ Status.SinkFault }
    ensures memory { status ≡ Status.Ok → saved ≡ Err SaveFault.OutOfMemory → result ≡ Status.OutOfMemory }
{
    match (status, saved) {
        (Status::Ok, Err(SaveFault::SinkFault)) => Status::SinkFault,
        (Status::Ok, Err(SaveFault::OutOfMemory)) => Status::OutOfMemory,
        (status, _) => status,
    }
}

fn run_saved<R, I>(
    rt: &R,
    words: &Vec<String>,
    source: SourcePath<'_>,
    image: I,
    history: FileSink,
) -> Ran<I>
where
    R: Threads + Wait + Files<File = File> + Print + AllocGlobal + Copy + Send + Sync + Drop,
    I: Image + Send + Drop,
{
    let Saved {
        ended,
        saved,
        history: _,
    } = run_and_save(
        rt,
        rt.alloc(),
        words,
        source_of(*rt, source),
        image,
        OutSink::new(*rt),
        &NoGate,
        NoWatch,
        history,
    );
    let Ended { status, image, .. } = ended;
    let unsaved = saved.is_err();
    Ran {
        status: of_saving(status, saved),
        image,
        history: None,
        unsaved,
    }
}

// The history's file is opened before the run: where it can't be, nothing is run.
fn run_on<R, I>(
    rt: &R,
    words: &Vec<String>,
    paths: Paths<'_>,
    image: I,
) -> Result<Ran<I>, AllocError>
where
    R: Threads + Wait + Files<File = File> + Print + AllocGlobal + Copy + Send + Sync + Drop,
    I: Image + Send + Drop,
{
    match paths.history {
        Some(history) => {
            let file = FileSink::at(rt, rt.alloc(), history)?;
            match file.trouble() {
                None => Ok(run_saved(rt, words, paths.source, image, file)),
                refused => Ok(Ran {
                    status: Status::SinkFault,
                    image,
                    history: refused,
                    unsaved: false,
                }),
            }
        }
        None => Ok(run_alone(rt, words, paths.source, image)),
    }
}

// The files are one image; or one that fails at every call, and why.
fn paired(a: FileImage, b: FileImage) -> (Mirror<FileImage, FileImage>, Option<MirrorFault>) {
    match Mirror::pair(a, b) {
        Ok(mirror) => (mirror, None),
        Err((fault, a, b)) => (Mirror::closed(a, b), Some(fault)),
    }
}

// A run over an image and its mirror: each has one line more, and both are locked before either is read.
fn run_mirrored<R>(
    rt: &R,
    words: &Vec<String>,
    paths: Paths<'_>,
    mirror: &str,
) -> Result<Done, AllocError>
where
    R: Threads + Wait + Files<File = File> + Print + AllocGlobal + Copy + Send + Sync + Drop,
{
    let lines = paths.lines.map(|lines| u64::from(lines) + 1);
    let first = FileImage::at(rt, rt.alloc(), paths.image, lines)?;
    let second = FileImage::at(rt, rt.alloc(), mirror, lines)?;
    let (image, unpaired) = paired(first, second);
    let ran = run_on(rt, words, paths, image)?;
    let (first, second) = ran.image.halves();
    Ok(Done {
        status: ran.status,
        image: first.trouble(),
        mirror: second.trouble(),
        unpaired,
        history: ran.history,
        unsaved: ran.unsaved,
    })
}

/// Does what the words ask of the top call, with the host as source, image and sink.
pub(crate) fn run<R>(
    rt: &R,
    words: &Vec<String>,
    command: Option<&Command>,
) -> Result<Done, AllocError>
where
    R: Threads + Wait + Files<File = File> + Print + AllocGlobal + Copy + Send + Sync + Drop,
{
    let paths = paths_of(command);
    if let Some(mirror) = paths.mirror {
        return run_mirrored(rt, words, paths, mirror);
    }
    let lines = paths.lines.map(u64::from);
    let image = FileImage::at(rt, rt.alloc(), paths.image, lines)?;
    let ran = run_on(rt, words, paths, image)?;
    Ok(Done {
        status: ran.status,
        image: ran.image.trouble(),
        mirror: None,
        unpaired: None,
        history: ran.history,
        unsaved: ran.unsaved,
    })
}

/// The paths of a command's image, its mirror and its history, as they are told.
pub(crate) fn told_paths(command: Option<&Command>) -> (&str, &str, &str) {
    let paths = paths_of(command);
    (
        paths.image,
        paths.mirror.unwrap_or(""),
        paths.history.unwrap_or(""),
    )
}
