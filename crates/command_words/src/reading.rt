// Words are read.
ghost use Rattle.std.specs.Prelude.{◌≡◌, ◌≢◌, ◌⊎◌, [], None, Some, IfOk, OnOk, IsErrOf, option_map};
ghost use Rattle.clap.specs.Words.{fault_of, first_of, found_of, kind_of, rows_of, subcommand_of, subcommand_rows_of};
ghost use Rattle.command_words.specs.Clap.{autopersist};
ghost use Rattle.command_words.specs.Commands as spec;

use crate::building::clap_command;
use crate::numbers::{Range, number_in, number_or};
use crate::{Asm, Audit, Check, Command, Compact, Dump, Make, Run, Text, WordsFault};
use ap_base::Bytes;
use clap::error::ErrorKind;
use clap::{ArgMatches, Error};
use run_types::Limits;
use std::alloc::{AllocError, Global};

const WORKERS: Range = Range {
    least: 1,
    most: 64,
    default: 4,
};

const LINES: Range = Range {
    least: 32_768,
    most: 4_194_304,
    default: 262_144,
};

const HEAP: Range = Range {
    least: 1_024,
    most: 134_217_728,
    default: 8_388_608,
};

const ACTS: Range = Range {
    least: 1,
    most: 16_777_216,
    default: 1_048_576,
};

const MOST_NODES: u32 = 5_000;

// The value of an option or a positional word.
fn value<'a>(matches: &ArgMatches<'a>, id: &str) -> Option<&'a str>
    ensures { option_map (λ s. s.now) result ≡ first_of id.now (rows_of (found_of matches.now)) }
{
    matches.get_str(id)
}

fn workers(matches: &ArgMatches<'_>) -> Option<u8>
    ensures { result ≡ spec.workers_of (rows_of (found_of matches.now)) }
{
    match number_or(WORKERS, value(matches, "workers")) {
        Some(workers) => Some(workers as u8),
        None => None,
    }
}

fn lines(matches: &ArgMatches<'_>) -> Option<u32>
    ensures { result ≡ spec.lines_of (rows_of (found_of matches.now)) }
{
    number_or(LINES, value(matches, "size"))
}

fn limits(matches: &ArgMatches<'_>) -> Option<Limits>
    ensures { result ≡ spec.limits_of (rows_of (found_of matches.now)) }
{
    let Some(heap_words) = number_or(HEAP, value(matches, "heap")) else {
        return None;
    };
    let Some(acts) = number_or(ACTS, value(matches, "acts")) else {
        return None;
    };
    Some(Limits { heap_words, acts })
}

fn bytes(alloc: Global, text: &str) -> Result<Bytes, AllocError>
    ensures { IfOk result (λ bytes. bytes ≡ text.now) }
{
    Bytes::copy(alloc, text.as_bytes())
}

// The value of an option that need not be given.
fn given(alloc: Global, matches: &ArgMatches<'_>, id: &str) -> Result<Option<Text>, AllocError>
    ensures { IfOk result (λ text. text ≡ first_of id.now (rows_of (found_of matches.now))) }
{
    match value(matches, id) {
        Some(text) => Ok(Some(Text::copy(alloc, text)?)),
        None => Ok(None),
    }
}

fn copies(alloc: Global, first: &str, second: &str) -> Result<(Text, Text), AllocError>
    ensures { IfOk result (λ texts. (texts.0 ≡ first.now) × (texts.1 ≡ second.now)) }
{
    Ok((Text::copy(alloc, first)?, Text::copy(alloc, second)?))
}

fn check(alloc: Global, matches: &ArgMatches<'_>) -> Result<Option<Command>, AllocError>
    ensures { IfOk result (λ c. c ≡ spec.check_of (rows_of (found_of matches.now))) }
{
    let Some(image) = value(matches, "FILE") else {
        return Ok(None);
    };
    Ok(Some(Command::Check(Check {
        image: Text::copy(alloc, image)?,
        mirror: given(alloc, matches, "mirror")?,
    })))
}

fn dump(alloc: Global, matches: &ArgMatches<'_>) -> Result<Option<Command>, AllocError>
    ensures { IfOk result (λ c. c ≡ spec.dump_of (rows_of (found_of matches.now))) }
{
    let Some(image) = value(matches, "FILE") else {
        return Ok(None);
    };
    Ok(Some(Command::Dump(Dump {
        image: Text::copy(alloc, image)?,
        mirror: given(alloc, matches, "mirror")?,
    })))
}

fn asm(alloc: Global, matches: &ArgMatches<'_>) -> Result<Option<Command>, AllocError>
    ensures { IfOk result (λ c. c ≡ spec.asm_of (rows_of (found_of matches.now))) }
{
    let Some(class) = value(matches, "class") else {
        return Ok(None);
    };
    let Some(listing) = value(matches, "FILE") else {
        return Ok(None);
    };
    Ok(Some(Command::Asm(Asm {
        class: bytes(alloc, class)?,
        listing: Text::copy(alloc, listing)?,
    })))
}

fn make(alloc: Global, matches: &ArgMatches<'_>) -> Result<Option<Command>, AllocError>
    ensures { IfOk result (λ c. c ≡ spec.make_of (rows_of (found_of matches.now))) }
{
    let Some(image) = value(matches, "image") else {
        return Ok(None);
    };
    let Some(text) = value(matches, "COUNT") else {
        return Ok(None);
    };
    let Some(count) = number_in(1, MOST_NODES, text) else {
        return Ok(None);
    };
    let Some(workers) = workers(matches) else {
        return Ok(None);
    };
    let Some(lines) = lines(matches) else {
        return Ok(None);
    };
    Ok(Some(Command::Make(Make {
        image: Text::copy(alloc, image)?,
        count,
        workers,
        lines,
        mirror: given(alloc, matches, "mirror")?,
    })))
}

// Without the files that need not be given.
fn plain_run(alloc: Global, matches: &ArgMatches<'_>) -> Result<Option<Run>, AllocError>
    ensures { IfOk result (λ r. r ≡ spec.plain_run_of (rows_of (found_of matches.now))) }
{
    let Some(image) = value(matches, "image") else {
        return Ok(None);
    };
    let Some(main) = value(matches, "main") else {
        return Ok(None);
    };
    let Some(folder) = value(matches, "DIR") else {
        return Ok(None);
    };
    let Some(workers) = workers(matches) else {
        return Ok(None);
    };
    let Some(lines) = lines(matches) else {
        return Ok(None);
    };
    let Some(limits) = limits(matches) else {
        return Ok(None);
    };
    Ok(Some(Run {
        image: Text::copy(alloc, image)?,
        main: bytes(alloc, main)?,
        folder: Text::copy(alloc, folder)?,
        workers,
        lines,
        mirror: None,
        history: None,
        limits,
    }))
}

fn run(alloc: Global, matches: &ArgMatches<'_>) -> Result<Option<Command>, AllocError>
    ensures { IfOk result (λ c. c ≡ spec.run_of (rows_of (found_of matches.now))) }
{
    let mirror = given(alloc, matches, "mirror")?;
    let history = given(alloc, matches, "history")?;
    match plain_run(alloc, matches)? {
        Some(run) => Ok(Some(Command::Run(Run {
            mirror,
            history,
            ..run
        }))),
        None => Ok(None),
    }
}

fn compact(alloc: Global, matches: &ArgMatches<'_>) -> Result<Option<Command>, AllocError>
    ensures { IfOk result (λ c. c ≡ spec.compact_of (rows_of (found_of matches.now))) }
{
    let Some(old) = value(matches, "OLD") else {
        return Ok(None);
    };
    let Some(new) = value(matches, "NEW") else {
        return Ok(None);
    };
    let Some(lines) = lines(matches) else {
        return Ok(None);
    };
    Ok(Some(Command::Compact(Compact {
        old: Text::copy(alloc, old)?,
        new: Text::copy(alloc, new)?,
        lines,
    })))
}

fn audit(alloc: Global, matches: &ArgMatches<'_>) -> Result<Option<Command>, AllocError>
    ensures { IfOk result (λ c. c ≡ spec.audit_of (rows_of (found_of matches.now))) }
{
    let Some(before) = value(matches, "before") else {
        return Ok(None);
    };
    let Some(after) = value(matches, "after") else {
        return Ok(None);
    };
    let Some(history) = value(matches, "history") else {
        return Ok(None);
    };
    let Some(output) = value(matches, "output") else {
        return Ok(None);
    };
    let Some(main) = value(matches, "main") else {
        return Ok(None);
    };
    let Some(folder) = value(matches, "DIR") else {
        return Ok(None);
    };
    let (before, after) = copies(alloc, before, after)?;
    let (history, output) = copies(alloc, history, output)?;
    Ok(Some(Command::Audit(Audit {
        before,
        after,
        history,
        output,
        main: bytes(alloc, main)?,
        folder: Text::copy(alloc, folder)?,
    })))
}

fn asked(alloc: Global, name: &str, matches: &ArgMatches<'_>) -> Result<Option<Command>, AllocError>
    ensures { IfOk result (λ c. c ≡ spec.subcommand_asks name.now (rows_of (found_of matches.now))) }
{
    if name == "run" {
        run(alloc, matches)
    } else if name == "check" {
        check(alloc, matches)
    } else if name == "dump" {
        dump(alloc, matches)
    } else if name == "asm" {
        asm(alloc, matches)
    } else if name == "make" {
        make(alloc, matches)
    } else if name == "compact" {
        compact(alloc, matches)
    } else if name == "audit" {
        audit(alloc, matches)
    } else {
        Ok(None)
    }
}

// What the subcommand that was met asks for.
fn asked_by(alloc: Global, matches: &ArgMatches<'_>) -> Result<Option<Command>, AllocError>
    ensures { IfOk result (λ c. c ≡ spec.asked_in (subcommand_rows_of matches.now)) }
{
    let Some((name, inner)) = matches.subcommand() else {
        return Ok(None);
    };
    asked(alloc, name, inner)
}

/// Why `clap` gives no matches.
pub(crate) fn cause(error: &Error) -> WordsFault
    ensures usage { result ≡ WordsFault.Usage → kind_of error.now ≢ ErrorKind.OutOfMemory }
{
    if error.kind() == ErrorKind::OutOfMemory {
        WordsFault::OutOfMemory
    } else {
        WordsFault::Usage
    }
}

// What `clap` makes of words.
fn matched<'a>(alloc: Global, words: &'a [String]) -> Result<ArgMatches<'a>, WordsFault>
    ensures taken { OnOk result (fault_of autopersist (spec.texts words.now) ≡ []) }
    ensures matches { IfOk result (λ m. subcommand_rows_of m
        ≡ subcommand_of autopersist (spec.texts words.now)) }
    ensures usage { IsErrOf result WordsFault.Usage
        → (fault_of autopersist (spec.texts words.now) ≡ []) → ⊥ }
{
    let Ok(command) = clap_command(alloc) else {
        return Err(WordsFault::OutOfMemory);
    };
    match command.try_get_matches_from(words) {
        Ok(matches) => Ok(matches),
        Err(error) => Err(cause(&error)),
    }
}

/// The command that words ask for, which begin with the program's name.
///
/// # Errors
///
/// `Usage` exactly where they ask for none: where `clap` refuses them, or a number isn't of its form and range. Want of
/// memory may stand in place of any answer.
#[tactic(auto, using(crate::proofs::Asked::taken, crate::proofs::Asked::refused))]
pub fn read_words(alloc: Global, words: &Vec<String>) -> Result<Command, WordsFault>
    ensures command { IfOk result (λ c. spec.command_of (spec.texts words.now.items) ≡ Some c) }
    ensures usage { IsErrOf result WordsFault.Usage → spec.command_of (spec.texts words.now.items) ≡ None }
    ensures refused { spec.command_of (spec.texts words.now.items) ≡ None
        → IsErrOf result WordsFault.Usage ⊎ IsErrOf result WordsFault.OutOfMemory }
{
    match matched(alloc, words.as_slice()) {
        Ok(matches) => match asked_by(alloc, &matches) {
            Ok(Some(command)) => Ok(command),
            Ok(None) => Err(WordsFault::Usage),
            Err(_) => Err(WordsFault::OutOfMemory),
        },
        Err(fault) => Err(fault),
    }
}
