// What a script's rows stand on: texts, images, numbers, and what the next command is given.
use crate::given::Files;
use crate::numbers::Number;
use crate::running::Done;
use crate::texts::{Text, push_texts};
use line_image::{Fails, Image, MemoryImage};
use run_fixture::{LINES, line_of, no_fails};
use std::alloc::{AllocError, Global};

/// Which calls of an image fail: that of a number, or all from it on.
#[derive(Clone, Copy)]
pub(crate) struct Failing {
    pub(crate) call: u64,
    pub(crate) once: bool,
}

/// No call fails.
pub(crate) const NEVER: Failing = Failing {
    call: u64::MAX,
    once: false,
};

/// An image with a name, and which of its calls fail in the next command.
#[derive(Drop)]
pub(crate) struct Held {
    name: String,
    pub(crate) image: MemoryImage,
    pub(crate) failing: Failing,
}

/// What the rows of a script stand on.
#[derive(Drop)]
pub(crate) struct World {
    pub(crate) texts: Vec<Text>,
    pub(crate) images: Vec<Held>,
    pub(crate) numbers: Vec<Number>,
    pub(crate) source: Files,
    pub(crate) records: Files,
    /// How many bytes the sink takes at once, and the number of its call that fails.
    pub(crate) sink: (u64, u64),
    /// The history of the last run.
    pub(crate) history: Vec<u8>,
    pub(crate) last: Option<Done>,
}

/// How many bytes a sink takes at once, if nothing is said.
pub(crate) const MOST: u64 = 24;

impl World {
    /// A script's world before its first row, with its texts and those that are shared.
    pub(crate) fn of_texts(alloc: Global, shared: &str, own: &str) -> Result<World, AllocError> {
        let mut texts = Vec::new(alloc);
        push_texts(alloc, &mut texts, shared)?;
        push_texts(alloc, &mut texts, own)?;
        Ok(World {
            texts,
            images: Vec::new(alloc),
            numbers: Vec::new(alloc),
            source: Files::none(alloc),
            records: Files::none(alloc),
            sink: (MOST, u64::MAX),
            history: Vec::new(alloc),
            last: None,
        })
    }
}

/// The image of a name.
pub(crate) fn held_image<'a>(images: &'a [Held], name: &str) -> Option<&'a Held> {
    for held in images {
        if held.name.as_str() == name {
            return Some(held);
        }
    }
    None
}

fn place_of(images: &[Held], name: &str) -> usize {
    for (place, held) in images.iter().enumerate() {
        if held.name.as_str() == name {
            return place;
        }
    }
    images.len()
}

/// Calls of the image of this name fail in the next command.
pub(crate) fn fail(images: &mut [Held], name: &str, failing: Failing) {
    for held in images.iter_mut() {
        if held.name.as_str() == name {
            held.failing = failing;
        }
    }
}

/// Gives an image a name. None of its calls fail.
pub(crate) fn put_image(
    alloc: Global,
    images: &mut Vec<Held>,
    name: &str,
    image: MemoryImage,
) -> Result<(), AllocError> {
    let place = place_of(images, name);
    if let Some(held) = images.get_mut(place) {
        held.image = image;
        held.failing = NEVER;
        return Ok(());
    }
    let name = String::from_str(alloc, name)?;
    images.push(Held {
        name,
        image,
        failing: NEVER,
    })?;
    Ok(())
}

fn fails_of(alloc: Global, failing: Failing) -> Result<Fails, AllocError> {
    let Failing { call, once } = failing;
    let calls = if once {
        [call].to_vec(alloc)?
    } else {
        Vec::new(alloc)
    };
    Ok(Fails {
        calls,
        since: if once { u64::MAX } else { call },
        room: 40_000,
    })
}

/// An image with what was written last to another, of which calls fail as those of the other are to.
pub(crate) fn copied(
    alloc: Global,
    images: &[Held],
    name: &str,
) -> Result<Option<MemoryImage>, AllocError> {
    let Some(held) = held_image(images, name) else {
        return Ok(None);
    };
    let fails = fails_of(alloc, held.failing)?;
    Ok(Some(held.image.crash(alloc, 1, fails)?))
}

/// What a stop leaves of an image by a pick.
pub(crate) fn stopped(
    alloc: Global,
    images: &[Held],
    name: &str,
    pick: u64,
) -> Result<Option<MemoryImage>, AllocError> {
    let Some(held) = held_image(images, name) else {
        return Ok(None);
    };
    let fails = fails_of(alloc, NEVER)?;
    Ok(Some(held.image.crash(alloc, pick, fails)?))
}

/// An image of so many lines of zeros.
pub(crate) fn zeros(alloc: Global, lines: u64) -> Result<MemoryImage, AllocError> {
    MemoryImage::new(alloc, lines, no_fails(alloc))
}

/// Stores a word of an image, if it is there.
pub(crate) fn store(image: &mut MemoryImage, line: u64, word: u64, value: u64) {
    let mut words = line_of(image, line);
    if word < 8 {
        words[word as usize] = value;
    }
    if line < image.lines() {
        let _written = image.write_line(line, &words);
    }
}

/// The first line of root slots or objects that differs between two images.
pub(crate) fn first_other(image: &MemoryImage, other: &MemoryImage) -> Option<u64> {
    for line in (1..33).chain(20_577..LINES) {
        if line_of(image, line) != line_of(other, line) {
            return Some(line);
        }
    }
    None
}
