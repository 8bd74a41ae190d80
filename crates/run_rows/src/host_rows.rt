// Runs of the top call on an image file, and what the adapters do at the edges: a second opening, odd files.
use ap_base::{ClassSource, Sink, SourceError};
use host_edges::{FileImage, FileSink, HostSource, Trouble, class_names, hold_streams};
use line_image::Image;
use run_fixture::{PRINTS, RUN, STORES, has_output, main_class, run_words, sink, source};
use std::alloc::Global;
use std::io::Write;
use std::os::fd::AsRawFd;
use std::os::unix::fs::symlink;
use std::rt::Files;
use std::sync::Wait;
use std::test::Fail;
use std::thread::Threads;
use std::{fs, io};

const IMAGE: &str = "work.img";

/// A file of zeros: a blank image of 32,768 lines.
fn blank_file(rt: HostRuntime) -> Result<(), Fail> {
    Ok(fs::File::create(&rt, IMAGE)?.set_len(64 * 32_768)?)
}

/// Whether a run of a class Main with this body on an image file prints this, with the status line behind it.
fn prints<R>(
    rt: &R,
    alloc: Global,
    body: &[&str],
    image: FileImage,
    text: &str,
) -> Result<bool, Fail>
where
    R: Threads + Wait + Clone + Send + Sync + Drop,
{
    let class = main_class(alloc, body)?;
    let source = source(alloc, &class)?;
    let sink = sink(alloc, 24, u64::MAX)?;
    let ended = run_words(rt, alloc, &RUN, source, image, sink)?;
    Ok(has_output(alloc, &ended, text)?)
}

/// One stores 7 and prints it, and one prints what is stored.
static BODIES: [&[&str]; 2] = [&[STORES, PRINTS], &[PRINTS]];

#[test]
fn two_runs_on_one_file(rt: HostRuntime) -> Result<(), Fail> {
    blank_file(rt)?;
    for (number, body) in BODIES.iter().enumerate() {
        let image = FileImage::at(&rt, rt.alloc(), IMAGE, None)?;
        assert!(rt;
            prints(&rt, rt.alloc(), body, image, "7\n")?,
            "run {number}"
        );
    }
    Ok(())
}

/// Lengths of files that are no images: none, a part of a line, and a line too few.
static LENGTHS: [u64; 3] = [0, 40, 64 * 32_767];

#[test]
fn short_files_are_no_images(rt: HostRuntime) -> Result<(), Fail> {
    for length in &LENGTHS {
        fs::File::create(&rt, IMAGE)?.set_len(*length)?;
        let image = FileImage::at(&rt, rt.alloc(), IMAGE, None)?;
        let is_short = image.trouble() == Some(Trouble::TooShort(*length));
        let is_told = prints(&rt, rt.alloc(), &[], image, "autopersist: image 0 Size\n")?;
        assert!(rt; is_short && is_told, "{length} bytes");
    }
    Ok(())
}

/// A stream that was closed takes no byte, so that a print to it is a fault of the sink.
#[test]
fn held_streams_take_nothing(rt: HostRuntime) -> Result<(), Fail> {
    for held in hold_streams(&rt) {
        let mut held = held?;
        assert!(rt; held.write(b"7").is_err());
    }
    Ok(())
}

#[test]
fn an_image_is_open_once(rt: HostRuntime) -> Result<(), Fail> {
    blank_file(rt)?;
    let mut first = FileImage::at(&rt, rt.alloc(), IMAGE, None)?;
    let mut second = FileImage::at(&rt, rt.alloc(), IMAGE, None)?;
    let is_first_alone = first.fence().is_ok() && second.fence().is_err();
    let is_told = first.trouble() == None && second.trouble() == Some(Trouble::Locked);
    assert!(rt; is_first_alone && second.lines() == 32_768 && is_told);
    Ok(())
}

/// Paths of no image, and why.
static TROUBLES: [(&str, Trouble); 2] = [("absent", Trouble::Absent), ("folder", Trouble::Folder)];

#[test]
fn no_image_is_there(rt: HostRuntime) -> Result<(), Fail> {
    fs::create_dir(&rt, "folder")?;
    for (path, why) in &TROUBLES {
        let told = FileImage::at(&rt, rt.alloc(), path, None)?.trouble();
        assert!(rt; told == Some(*why), "{path}");
    }
    Ok(())
}

/// Whether there is an image of 32,768 lines, and its last line is read as zeros.
fn is_blank(image: &mut FileImage) -> bool {
    let mut words = [1u64; 8];
    let is_read = image.lines() == 32_768 && image.read_line(32_767, &mut words).is_ok();
    is_read && words == [0; 8]
}

/// A file is made where there is none, and one that is there keeps its length.
#[test]
fn a_new_image_is_blank(rt: HostRuntime) -> Result<(), Fail> {
    for lines in [32_768, 40_000] {
        let mut image = FileImage::at(&rt, rt.alloc(), "new.img", Some(lines))?;
        assert!(rt;
            image.trouble() == None && is_blank(&mut image),
            "{lines} lines"
        );
    }
    Ok(())
}

/// Whether a line that was read ahead and then written is read as it was written.
fn is_read_anew(image: &mut FileImage) -> bool {
    let mut words = [0u64; 8];
    let is_done = image.lines() == 32_768
        && image.read_line(0, &mut words).is_ok()
        && image.write_line(1, &[7; 8]).is_ok()
        && image.read_line(1, &mut words).is_ok();
    is_done && words == [7; 8]
}

#[test]
fn what_was_read_ahead_gives_way_to_a_write(rt: HostRuntime) -> Result<(), Fail> {
    let mut image = FileImage::at(&rt, rt.alloc(), "anew.img", Some(32_768))?;
    assert!(rt; is_read_anew(&mut image));
    Ok(())
}

/// What can't be made isn't left behind: no file is that long.
#[test]
fn no_half_made_image_stays(rt: HostRuntime) -> Result<(), Fail> {
    let made = FileImage::at(&rt, rt.alloc(), "long.img", Some(1 << 60))?.trouble();
    let left = FileImage::at(&rt, rt.alloc(), "long.img", None)?.trouble();
    assert!(rt; made == Some(Trouble::Other) && left == Some(Trouble::Absent));
    Ok(())
}

/// Whether two pieces are put into a file.
fn are_put(rt: HostRuntime) -> Result<bool, Fail> {
    let mut sink = FileSink::at(&rt, rt.alloc(), "sink")?;
    Ok(matches!(sink.put(b"ab"), Ok(2)) && matches!(sink.put(b"cde"), Ok(3)))
}

/// What is put stands in the file, piece behind piece, and a file that has bytes isn't taken.
#[test]
fn a_file_takes_what_is_put(rt: HostRuntime) -> Result<(), Fail> {
    let is_put = are_put(rt)?;
    let written = fs::read(&rt, "sink")?;
    assert!(rt; is_put && written.as_slice() == b"abcde".as_slice());
    let mut second = FileSink::at(&rt, rt.alloc(), "sink")?;
    let is_refused = second.trouble() == Some(Trouble::Used) && second.put(b"f").is_err();
    assert!(rt; is_refused);
    Ok(())
}

/// Whether a source gives one file of this name and these bytes, and no other.
fn gives<C: ClassSource>(alloc: Global, mut source: C, name: &[u8], bytes: &[u8]) -> bool {
    let Ok(Some(file)) = source.next(alloc) else {
        return false;
    };
    let is_file = file.name.as_slice() == name && file.bytes.as_slice() == bytes;
    is_file && matches!(source.next(alloc), Ok(None))
}

#[test]
fn one_file_is_read(rt: HostRuntime) -> Result<(), Fail> {
    fs::write(&rt, "a.lst", "class A")?;
    let source = HostSource::file(rt, rt.alloc(), "a.lst");
    assert!(rt; gives(rt.alloc(), source, b"a.lst", b"class A"));
    let mut absent = HostSource::file(rt, rt.alloc(), "b.lst");
    assert!(rt; matches!(absent.next(rt.alloc()), Err(SourceError::Failed)));
    Ok(())
}

/// How many bytes of a folder's only class file are read, and how many it has.
type FileRead = Result<Option<(usize, u64)>, SourceError>;

fn only_file<R: Files + AllocGlobal + Drop>(rt: R, folder: &str) -> FileRead {
    let alloc = rt.alloc();
    let mut folder = HostSource::folder(rt, alloc, folder);
    match folder.next(alloc)? {
        Some(file) => Ok(Some((file.bytes.as_slice().len(), file.size))),
        None => Ok(None),
    }
}

/// What is read of a folder's class file that is a link to this. The link stands there alone.
fn read_through(rt: HostRuntime, folder: &str, link: &str, to: &str) -> Result<FileRead, Fail> {
    symlink(&rt, to, link)?;
    let read = only_file(rt, folder);
    fs::remove_file(&rt, link)?;
    Ok(read)
}

static LINKS: [(&str, FileRead); 5] = [
    ("../short", Ok(Some((3, 3)))),
    ("../sparse", Ok(Some((1_048_577, 4_294_967_296)))),
    ("../links", Err(SourceError::Failed)),
    ("../nothing", Err(SourceError::Failed)),
    ("/dev/zero", Err(SourceError::Failed)),
];

#[test]
fn only_regular_files_are_read(rt: HostRuntime) -> Result<(), Fail> {
    fs::create_dir(&rt, "links")?;
    fs::write(&rt, "short", "abc")?;
    fs::File::create(&rt, "sparse")?.set_len(1 << 32)?;
    for (to, want) in &LINKS {
        let read = read_through(rt, "links", "links/a.class", to)?;
        assert!(rt; read == *want, "at {to}");
    }
    Ok(())
}

#[test]
fn no_pipe_is_read(rt: HostRuntime) -> Result<(), Fail> {
    fs::create_dir(&rt, "pipes")?;
    let (reader, _writer) = io::pipe(&rt)?;
    let to = format!(in rt.alloc(); "/proc/self/fd/{}", reader.as_raw_fd())?;
    let read = read_through(rt, "pipes", "pipes/a.class", to.as_str())?;
    assert!(rt; read == Err(SourceError::Failed));
    Ok(())
}

/// Whether the names of a folder's class files are these three.
fn are_names(names: &[Vec<u8>], want: [&[u8]; 3]) -> bool {
    match names {
        [first, second, third] => {
            [first.as_slice(), second.as_slice(), third.as_slice()] == want
        }
        _ => false,
    }
}

#[test]
fn names_need_not_be_text(rt: HostRuntime) -> Result<(), Fail> {
    let list = b"\xff.txt\0Main.class\0\xff.class\0A.classes\0A.class\0";
    let names = class_names(rt.alloc(), list.as_slice())?;
    assert!(rt; are_names(&names, [b"\xff.class", b"Main.class", b"A.class"]));
    Ok(())
}
