// What the program tells on standard error.
use autopersist::{Status, status_text};
use command_words::usage_text;
use host_edges::Trouble;
use mirror_image::MirrorFault;
use std::alloc::{AllocError, Global};
use std::io::Write;
use std::process::ExitCode;

/// Tells a status, and gives its number.
pub(crate) fn tell<W: Write + Drop>(alloc: Global, mut to: W, status: &Status) -> ExitCode {
    if let Ok(text) = status_text(alloc, status) {
        let _told = to.write_all(text.as_slice());
    }
    ExitCode::from(status.number())
}

// A path may hold control characters, on which a terminal acts: none of them is told.
fn shown(alloc: Global, path: &str) -> Result<String, AllocError> {
    path.chars()
        .map(|c| if c.is_control() { '?' } else { c })
        .collect(alloc)
}

// Nor is one of a text, but for the ends of its lines.
fn lines_shown(alloc: Global, text: &str) -> Result<String, AllocError> {
    text.chars()
        .map(|c| if c.is_control() && c != '\n' { '?' } else { c })
        .collect(alloc)
}

/// Tells why a file can't serve, if that is known.
pub(crate) fn tell_trouble<W: Write + Drop>(
    alloc: Global,
    mut to: W,
    what: &str,
    path: &str,
    trouble: Option<Trouble>,
) {
    let Some(trouble) = trouble else {
        return;
    };
    if let Ok(path) = shown(alloc, path) {
        let _told = writeln!(to, "autopersist: {what} {path}: {trouble}");
    }
}

/// Tells that a history wasn't saved whole.
pub(crate) fn tell_unsaved<W: Write + Drop>(alloc: Global, mut to: W, path: &str) {
    if let Ok(path) = shown(alloc, path) {
        let _told = writeln!(to, "autopersist: history {path}: it wasn't saved");
    }
}

/// Tells why two files aren't one image, if they aren't.
pub(crate) fn tell_unpaired<W: Write + Drop>(mut to: W, fault: Option<MirrorFault>) {
    if let Some(fault) = fault {
        let _told = writeln!(to, "autopersist: mirror: {fault}");
    }
}

/// Tells what `clap` says of words that are no command.
pub(crate) fn tell_usage<W: Write + Drop>(alloc: Global, mut to: W, words: &Vec<String>) {
    if let Ok(Some(text)) = usage_text(alloc, words) {
        if let Ok(text) = lines_shown(alloc, text.as_str()) {
            let _told = to.write_all(text.as_bytes());
        }
    }
}

/// Whether the image's own trouble may explain the status.
pub(crate) fn is_of_image(status: &Status) -> bool {
    matches!(
        status,
        Status::ImageFault | Status::BadImage { .. } | Status::NewImage { .. }
    )
}
