//! Plays scripts of commands on images in memory, and prints what each row of a script prints.
#![tactic(auto)]

mod commands;
mod given;
mod judging;
mod leaving;
mod numbers;
mod playing;
mod running;
mod script;
mod showing;
mod texts;
mod world;

use crate::playing::play_row;
use crate::world::World;
use std::alloc::{AllocError, Global};
use std::sync::Wait;
use std::thread::Threads;
use std::{fs, io};

/// What the rows of a script print. Its texts stand before them, and each begins with `==`.
fn play_script<R>(rt: &R, alloc: Global, shared: &str, script: &str) -> Result<String, AllocError>
where
    R: Threads + Wait + Clone + Send + Sync + Drop,
{
    let mut out = String::new(alloc);
    let mut rows = script.split("\n== ");
    let texts = rows.next().unwrap_or("");
    let mut world = World::of_texts(alloc, shared, texts)?;
    for row in rows {
        play_row(rt, alloc, &mut world, row, &mut out)?;
    }
    Ok(out)
}

/// The file `scripts` has the name of each, and `texts` the texts that they share.
fn main(rt: HostRuntime) -> io::Result<()> {
    let shared = fs::read_to_string(&rt, "texts")?;
    for name in fs::read_to_string(&rt, "scripts")?.lines() {
        println!(rt; "==== {name}")?;
        let file = format!(in rt.alloc(); "{name}.script")?;
        let script = fs::read_to_string(&rt, file.as_str())?;
        let told = play_script(&rt, rt.alloc(), shared.as_str(), script.as_str())?;
        print!(rt; "{told}")?;
    }
    Ok(())
}
