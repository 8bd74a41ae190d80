// Words, and what they are read as.
use command_words::{
    Audit, Command, Make, Run, Text, WordsFault, clap_command, read_words, usage_text,
};
use std::alloc::{AllocError, Global};
use std::str;
use std::test::Fail;

/// Words behind the program's name, with a blank between two, and the command's name and values in the order of its fields;
/// no values where the words are no command.
static ROWS: [(&str, &str); 42] = [
    (
        "run --image F --main C DIR",
        "run F C DIR 4 262144 8388608 1048576",
    ),
    (
        "run --main=C DIR --image=F",
        "run F C DIR 4 262144 8388608 1048576",
    ),
    (
        "run DIR --image F --main C",
        "run F C DIR 4 262144 8388608 1048576",
    ),
    (
        "run --image F --main C -- -dir",
        "run F C -dir 4 262144 8388608 1048576",
    ),
    (
        "run --image=-x --main a.B DIR",
        "run -x a.B DIR 4 262144 8388608 1048576",
    ),
    (
        "run --image  --main= DIR",
        "run   DIR 4 262144 8388608 1048576",
    ),
    (
        "run --image F --main C DIR --workers 64 --size 4194304",
        "run F C DIR 64 4194304 8388608 1048576",
    ),
    (
        "run --image F --main C DIR --workers=001 --size=32768",
        "run F C DIR 1 32768 8388608 1048576",
    ),
    (
        "run --image F --main C DIR --heap 1024 --acts 1",
        "run F C DIR 4 262144 1024 1",
    ),
    (
        "run --image F --main C DIR --heap 134217728 --acts 16777216",
        "run F C DIR 4 262144 134217728 16777216",
    ),
    ("make --image F 50", "make F 50 4 262144"),
    (
        "make 5000 --image=F --workers 1 --size 32768",
        "make F 5000 1 32768",
    ),
    ("check F", "check F"),
    ("dump F", "dump F"),
    ("asm --class A a.lst", "asm A a.lst"),
    (
        "run --image F --main C DIR --mirror G --history H",
        "run F C DIR 4 262144 8388608 1048576 G H",
    ),
    ("make --mirror G --image F 50", "make F 50 4 262144 G"),
    ("check F --mirror=G", "check F G"),
    ("dump F --mirror G", "dump F G"),
    ("compact F G --size 32768", "compact F G 32768"),
    (
        "audit --before B --after F --history H --output O --main C DIR",
        "audit B F H O C DIR",
    ),
    ("compact F", ""),
    ("audit --before B --after F --history H --main C DIR", ""),
    ("run --image F DIR", ""),
    ("run --image F --image G --main C DIR", ""),
    ("run --image F --main C DIR E", ""),
    ("run --image F --main C DIR --workers 65", ""),
    ("run --image F --main C DIR --workers 0", ""),
    ("run --image F --main C DIR --workers 0000000000004", ""),
    ("run --image F --main C DIR --size 32767", ""),
    ("run --image F --main C DIR --heap 1023", ""),
    ("run --image F --main C DIR --acts 16777217", ""),
    ("run --image -x --main C DIR", ""),
    ("run --imag F --main C DIR", ""),
    ("make --image F 5001", ""),
    ("make --image F 0", ""),
    ("make --image F 50 --heap 1024", ""),
    ("dump F --size 40000", ""),
    ("asm a.lst", ""),
    ("help", ""),
    ("--version", ""),
    ("frob", ""),
];

fn words(alloc: Global, row: &str) -> Result<Vec<String>, AllocError> {
    let mut words = Vec::new(alloc);
    words.push(String::from_str(alloc, "autopersist")?)?;
    for word in row.split(' ') {
        words.push(String::from_str(alloc, word)?)?;
    }
    Ok(words)
}

fn name(bytes: &[u8]) -> &str {
    match str::from_utf8(bytes) {
        Ok(text) => text,
        Err(_) => "no text",
    }
}

/// A blank and a text, where there is one.
fn behind(alloc: Global, text: &Option<Text>) -> Result<String, AllocError> {
    match text {
        Some(text) => format!(in alloc; " {}", text.as_str()),
        None => Ok(String::new(alloc)),
    }
}

fn shown_run(alloc: Global, run: &Run) -> Result<String, AllocError> {
    let mirror = behind(alloc, &run.mirror)?;
    let history = behind(alloc, &run.history)?;
    format!(in alloc;
        "run {} {} {} {} {} {} {}{}{}",
        run.image.as_str(),
        name(run.main.as_slice()),
        run.folder.as_str(),
        run.workers,
        run.lines,
        run.limits.heap_words,
        run.limits.acts,
        mirror.as_str(),
        history.as_str()
    )
}

fn shown_make(alloc: Global, make: &Make) -> Result<String, AllocError> {
    let mirror = behind(alloc, &make.mirror)?;
    format!(in alloc;
        "make {} {} {} {}{}",
        make.image.as_str(),
        make.count,
        make.workers,
        make.lines,
        mirror.as_str()
    )
}

fn shown_image(
    alloc: Global,
    command: &str,
    image: &Text,
    mirror: &Option<Text>,
) -> Result<String, AllocError> {
    let mirror = behind(alloc, mirror)?;
    format!(in alloc; "{command} {}{}", image.as_str(), mirror.as_str())
}

fn shown_audit(alloc: Global, audit: &Audit) -> Result<String, AllocError> {
    format!(in alloc;
        "audit {} {} {} {} {} {}",
        audit.before.as_str(),
        audit.after.as_str(),
        audit.history.as_str(),
        audit.output.as_str(),
        name(audit.main.as_slice()),
        audit.folder.as_str()
    )
}

/// A command's name and values.
fn shown(alloc: Global, command: &Command) -> Result<String, AllocError> {
    match command {
        Command::Run(run) => shown_run(alloc, run),
        Command::Make(make) => shown_make(alloc, make),
        Command::Check(check) => shown_image(alloc, "check", &check.image, &check.mirror),
        Command::Dump(dump) => shown_image(alloc, "dump", &dump.image, &dump.mirror),
        Command::Asm(asm) => format!(in alloc;
            "asm {} {}",
            name(asm.class.as_slice()),
            asm.listing.as_str()
        ),
        Command::Compact(compact) => format!(in alloc;
            "compact {} {} {}",
            compact.old.as_str(),
            compact.new.as_str(),
            compact.lines
        ),
        Command::Audit(audit) => shown_audit(alloc, audit),
    }
}

/// What the words are read as.
fn found(alloc: Global, words: &Vec<String>) -> Result<String, AllocError> {
    match read_words(alloc, words) {
        Ok(command) => shown(alloc, &command),
        Err(WordsFault::Usage) => Ok(String::new(alloc)),
        Err(WordsFault::OutOfMemory) => Err(AllocError),
    }
}

#[test]
fn words_are_read(rt: HostRuntime) -> Result<(), Fail> {
    for (row, want) in &ROWS {
        let found = found(rt.alloc(), &words(rt.alloc(), row)?)?;
        assert!(rt; found.as_str() == *want, "{row}: {found}");
    }
    Ok(())
}

/// Words, and a part of what `clap` tells of them; the empty text where it tells nothing.
static TOLD: [(&str, &str); 4] = [
    (
        "run --image F DIR",
        "Usage: autopersist run --image <image> --main <main> <DIR>",
    ),
    ("--help", "Usage: autopersist <COMMAND>"),
    ("frob", "frob"),
    ("make --image F 5001", ""),
];

fn told(alloc: Global, words: &Vec<String>) -> Result<String, AllocError> {
    match usage_text(alloc, words)? {
        Some(text) => Ok(text),
        None => Ok(String::new(alloc)),
    }
}

#[test]
fn refused_words_have_a_text(rt: HostRuntime) -> Result<(), Fail> {
    for (row, part) in &TOLD {
        let told = told(rt.alloc(), &words(rt.alloc(), row)?)?;
        let is_told = told.contains(part) && told.is_empty() == part.is_empty();
        assert!(rt; is_told, "{row}: {told}");
    }
    assert!(rt; clap_command(rt.alloc()).is_ok());
    Ok(())
}
