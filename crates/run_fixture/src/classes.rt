// Class files, from listings.
use ap_base::{Bytes, MemorySource, NamedBytes};
use class_file::write_class;
use listing::assemble;
use std::alloc::{AllocError, Global};
use std::test::Fail;

// class Main with the durable root `data`, up to the body of `main`
const HEAD: &str = ".class Main\n.super java/lang/Object\n.field data [I static root\n\
    .method main ([Ljava/lang/String;)V 3 1 static\n";

/// `data = new int[3]; data[1] = 7;`
pub const STORES: &str = "iconst_3\nnewarray int\nputstatic Main data [I\n\
    getstatic Main data [I\niconst_1\nbipush 7\niastore\n";

/// `System.out.println(data[1]);`
pub const PRINTS: &str = "getstatic java/lang/System out Ljava/io/PrintStream;\n\
    getstatic Main data [I\niconst_1\niaload\n\
    invokevirtual java/io/PrintStream println (I)V\n";

/// A file of a source, with all its bytes.
pub fn file(alloc: Global, name: &[u8], bytes: &[u8]) -> Result<NamedBytes, AllocError> {
    Ok(NamedBytes::whole(Bytes::copy(alloc, name)?, Bytes::copy(alloc, bytes)?))
}

/// The bytes of the first class of a listing; none where it is no listing.
fn class_bytes(alloc: Global, listing: &[u8]) -> Result<Option<Vec<u8>>, AllocError> {
    let Ok(classes) = assemble(alloc, listing) else {
        return Ok(None);
    };
    match classes.as_slice() {
        [class, ..] => Ok(Some(write_class(alloc, class)?)),
        [] => Ok(None),
    }
}

/// The bytes of the classes of a listing; none where it is no listing.
pub fn listed_classes(alloc: Global, listing: &[u8]) -> Result<Option<Vec<Vec<u8>>>, AllocError> {
    let Ok(classes) = assemble(alloc, listing) else {
        return Ok(None);
    };
    let mut all = Vec::new(alloc);
    for class in &classes {
        all.push(write_class(alloc, class)?)?;
    }
    Ok(Some(all))
}

/// The bytes of a class Main with the durable root `data` and these instructions in `main`.
pub fn main_class(alloc: Global, body: &[&str]) -> Result<Vec<u8>, Fail> {
    let mut text = HEAD.as_bytes().to_vec(alloc)?;
    for lines in body {
        text.extend_from_slice(lines.as_bytes())?;
    }
    text.extend_from_slice(b"return\n.end\n")?;
    Ok(class_bytes(alloc, &text)?.ok_or("a class")?)
}

/// A source of one file.
pub fn source(alloc: Global, bytes: &[u8]) -> Result<MemorySource, AllocError> {
    let mut files = Vec::new(alloc);
    files.push(file(alloc, b"Main.class", bytes)?)?;
    Ok(MemorySource::new(files, Vec::new(alloc)))
}

/// A source of the classes of a listing, a file each.
pub fn listed(alloc: Global, listing: &str) -> Result<MemorySource, Fail> {
    let classes = listed_classes(alloc, listing.as_bytes())?.ok_or("a listing")?;
    let mut files = Vec::new(alloc);
    for bytes in &classes {
        files.push(file(alloc, b"A.class", bytes.as_slice())?)?;
    }
    Ok(MemorySource::new(files, Vec::new(alloc)))
}
