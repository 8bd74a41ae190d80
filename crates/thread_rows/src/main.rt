//! Runs programs of several threads, whose events come by stated choices, and prints their acts, how their events went,
//! and what a stop leaves within each call of the image.
#![tactic(auto)]

mod choices;
mod endings;
mod opening;
mod playing;
mod rows;
mod texts;

use crate::rows::row_text;
use std::fs;
use std::io::{self, Write};
use std::rt::Files;

// A file of a row.
fn part(rt: &(impl Files + AllocGlobal), row: &str, ending: &str) -> io::Result<String> {
    let file = format!(in rt.alloc(); "{row}.{ending}")?;
    fs::read_to_string(rt, file.as_str())
}

// What a row comes to.
fn told(rt: &(impl Files + AllocGlobal), row: &str) -> io::Result<Vec<u8>> {
    let listing = part(rt, row, "lst")?;
    let choices = part(rt, row, "choices")?;
    row_text(rt.alloc(), listing.as_bytes(), choices.as_str())
}

/// The file `rows` has the name of each.
fn main(rt: HostRuntime) -> io::Result<()> {
    let mut out = rt.stdout();
    let rows = fs::read_to_string(&rt, "rows")?;
    for row in rows.lines() {
        println!(rt; "== {row}")?;
        out.write_all(told(&rt, row)?.as_slice())?;
    }
    Ok(())
}
