// Texts of a script, by their names, and texts that are printed.
use std::alloc::{AllocError, Global};

/// A text of a script: its lines, without what they are indented by.
#[derive(Drop)]
pub(crate) struct Text {
    name: String,
    lines: String,
}

/// The text of a name with the indented lines behind it.
fn text_of(alloc: Global, part: &str) -> Result<Text, AllocError> {
    let name = String::from_str(alloc, part.lines().next().unwrap_or(""))?;
    let mut lines = String::new(alloc);
    for line in part.lines() {
        if let Some(line) = line.strip_prefix("    ") {
            put_line(&mut lines, line)?;
        }
    }
    Ok(Text { name, lines })
}

/// Adds the texts of a script, each behind a line `text NAME`.
pub(crate) fn push_texts(
    alloc: Global,
    texts: &mut Vec<Text>,
    script: &str,
) -> Result<(), AllocError> {
    for part in script.split("\ntext ") {
        texts.push(text_of(alloc, part)?)?;
    }
    Ok(())
}

/// The lines of the text of a name, or the name behind a question mark.
pub(crate) fn put_named(out: &mut String, texts: &[Text], name: &str) -> Result<(), AllocError> {
    for text in texts {
        if text.name.as_str() == name {
            return out.push_str(text.lines.as_str());
        }
    }
    put_lost(out, name)
}

/// The texts of these names, one behind another.
pub(crate) fn joined(alloc: Global, texts: &[Text], names: &str) -> Result<String, AllocError> {
    let mut all = String::new(alloc);
    for name in names.split_ascii_whitespace() {
        put_named(&mut all, texts, name)?;
    }
    Ok(all)
}

/// Puts a line.
pub(crate) fn put_line(out: &mut String, line: &str) -> Result<(), AllocError> {
    out.push_str(line)?;
    out.push_str("\n")
}

/// Puts what can't be used of a script.
pub(crate) fn put_lost(out: &mut String, what: &str) -> Result<(), AllocError> {
    out.push_str("? ")?;
    put_line(out, what)
}

fn put_byte(out: &mut String, byte: u8) -> Result<(), AllocError> {
    if byte == b'\n' || (b' '..=b'~').contains(&byte) {
        return out.push(char::from(byte));
    }
    let alloc = *out.allocator();
    out.push_str(format!(in alloc; "\\x{byte:02x}")?.as_str())
}

/// Puts bytes; those that are neither a line feed nor a printed character of ASCII as `\x` and two digits.
pub(crate) fn put_bytes(out: &mut String, bytes: &[u8]) -> Result<(), AllocError> {
    for byte in bytes {
        put_byte(out, *byte)?;
    }
    Ok(())
}
