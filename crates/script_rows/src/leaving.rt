// What stops leave of images, as it is dumped.
use crate::commands::paired;
use crate::texts::{Text, joined, put_bytes, put_line};
use crate::world::{Held, World, stopped};
use ap_base::MemorySink;
use image_report::dump_image;
use line_image::{Image, MemoryImage};
use std::alloc::{AllocError, Global};

/// What is dumped of an image; nothing where it can't be opened.
fn dump<I: Image>(alloc: Global, image: I) -> Result<Vec<u8>, AllocError> {
    let sink = MemorySink::new(alloc, 1_000, 1_000, Vec::new(alloc))?;
    let reported = dump_image(alloc, image, sink);
    reported.sink.as_slice().to_vec(alloc)
}

/// Opens an image, of which calls may fail.
pub(crate) fn recover(alloc: Global, image: MemoryImage) -> Result<MemoryImage, AllocError> {
    let sink = MemorySink::new(alloc, 1_000, 1_000, Vec::new(alloc))?;
    Ok(dump_image(alloc, image, sink).image)
}

/// What is dumped of what a stop leaves of a device by a pick.
fn dumped(alloc: Global, images: &[Held], device: &str, pick: u64) -> Result<Vec<u8>, AllocError> {
    if let Some((one, two)) = device.split_once('+') {
        let first = stopped(alloc, images, one, pick)?;
        let second = stopped(alloc, images, two, pick)?;
        return match paired(first, second) {
            Some(mirror) => dump(alloc, mirror),
            None => Ok(Vec::new(alloc)),
        };
    }
    match stopped(alloc, images, device, pick)? {
        Some(image) => dump(alloc, image),
        None => Ok(Vec::new(alloc)),
    }
}

/// Whether bytes are one of these texts.
fn is_one(alloc: Global, texts: &[Text], names: &str, bytes: &[u8]) -> Result<bool, AllocError> {
    for name in names.split_ascii_whitespace() {
        if joined(alloc, texts, name)?.as_bytes() == bytes {
            return Ok(true);
        }
    }
    Ok(false)
}

/// Puts whether what a stop leaves of a device by each of these picks is dumped as one of these texts, or what is by the first other pick.
pub(crate) fn put_left(
    alloc: Global,
    out: &mut String,
    world: &World,
    device: &str,
    (from, to): (u64, u64),
    names: &str,
) -> Result<(), AllocError> {
    for pick in from..to.saturating_add(1) {
        let bytes = dumped(alloc, &world.images, device, pick)?;
        if !is_one(alloc, &world.texts, names, bytes.as_slice())? {
            put_line(out, format!(in alloc; "pick {pick} leaves")?.as_str())?;
            return put_bytes(out, bytes.as_slice());
        }
    }
    put_line(out, format!(in alloc; "left {names}")?.as_str())
}
