// The steps of a row, as its lines say them.
use crate::numbers::{Number, number_of, number_or};
use run_fixture::LINES;

/// What fails.
#[derive(Clone, Copy)]
pub(crate) enum Fails<'a> {
    Source,
    Records,
    Sink,
    Image(&'a str),
}

/// What the source or the records are given.
#[derive(Clone, Copy)]
pub(crate) enum Given<'a> {
    /// The classes of a listing, a file each.
    Listed(&'a str),
    /// Texts, as one file.
    Plain(&'a str),
    /// Bytes in hexadecimal, as one file, so many times.
    Bytes { texts: &'a str, times: u64 },
    /// So many zeros that were read of a file of this size.
    Zeros { count: u64, size: u64 },
    /// Of the records: the history of the last run.
    History,
    /// Of the records: texts, as one file.
    Record(&'a str),
}

/// A command. A device is an image, or two with a `+` between them, of which a mirror is made.
#[derive(Clone, Copy)]
pub(crate) enum Command<'a> {
    /// Runs class Main of a listing, which the source gives.
    Run {
        device: &'a str,
        listing: &'a str,
    },
    /// Words behind the program's name.
    Call {
        device: &'a str,
        words: &'a str,
    },
    Compact {
        old: &'a str,
        fresh: &'a str,
    },
    Audit {
        before: &'a str,
        after: &'a str,
        main: &'a str,
    },
}

/// What is shown of the last run.
#[derive(Clone, Copy)]
pub(crate) enum Shown {
    Acts,
    Turns,
    Counts,
    Saved,
    Guard { object: u32, index: u32 },
}

#[derive(Clone, Copy)]
pub(crate) enum Step<'a> {
    /// An image of so many lines of zeros.
    Blank {
        image: &'a str,
        lines: u64,
    },
    /// What a stop leaves of an image by a pick becomes an image.
    Stop {
        image: &'a str,
        pick: u64,
        left: &'a str,
    },
    /// A word of an image is shown.
    Word {
        image: &'a str,
        line: u64,
        word: u64,
    },
    /// A word of an image is changed.
    Store {
        image: &'a str,
        line: u64,
        word: u64,
        value: u64,
    },
    /// Whether the slots and objects of two images are the same.
    Same {
        image: &'a str,
        other: &'a str,
    },
    /// Whether what a stop leaves of a device by each of these picks is dumped as one of these texts.
    Left {
        device: &'a str,
        from: u64,
        to: u64,
        texts: &'a str,
    },
    /// Whether what a stop leaves of an image by each of these picks is what the last run's acts allow. The run began on another image,
    /// and its classes are in a listing; it may have made no act behind a call of the image.
    Judge {
        before: &'a str,
        image: &'a str,
        call: u64,
        from: u64,
        to: u64,
        listing: &'a str,
    },
    /// An image is opened, and nothing is told.
    Recover {
        image: &'a str,
    },
    /// A call fails, alone or with all later ones.
    Fails {
        what: Fails<'a>,
        call: u64,
        once: bool,
    },
    Give(Given<'a>),
    /// The sink takes so many bytes at once.
    Sink {
        most: u64,
    },
    Do(Command<'a>),
    /// Bytes of the last run's history are left out.
    Cut {
        from: u64,
        to: u64,
    },
    /// The last run's history says that it has so many acts.
    Count {
        acts: u64,
    },
    /// A number gets a name: that of the image calls before the last run's act of this name, the first one or a later one.
    Mark {
        name: &'a str,
        op: &'a str,
        which: u64,
    },
    Show(Shown),
}

/// The first word, and those behind it.
fn cut(words: &str) -> (&str, &str) {
    words.split_once(' ').unwrap_or((words, ""))
}

fn word_step<'a>(numbers: &[Number], image: &'a str, rest: &'a str) -> Option<Step<'a>> {
    let (line, rest) = cut(rest);
    let (word, value) = cut(rest);
    let line = number_of(numbers, line)?;
    let word = number_of(numbers, word)?;
    if value.is_empty() {
        return Some(Step::Word { image, line, word });
    }
    let value = number_of(numbers, value)?;
    Some(Step::Store {
        image,
        line,
        word,
        value,
    })
}

fn left_step<'a>(numbers: &[Number], device: &'a str, rest: &'a str) -> Option<Step<'a>> {
    let (from, rest) = cut(rest);
    let (to, texts) = cut(rest);
    Some(Step::Left {
        device,
        from: number_of(numbers, from)?,
        to: number_of(numbers, to)?,
        texts,
    })
}

fn judge_step<'a>(numbers: &[Number], before: &'a str, rest: &'a str) -> Option<Step<'a>> {
    let (image, rest) = cut(rest);
    let (call, rest) = cut(rest);
    let (from, rest) = cut(rest);
    let (to, listing) = cut(rest);
    Some(Step::Judge {
        before,
        image,
        call: number_of(numbers, call)?,
        from: number_of(numbers, from)?,
        to: number_of(numbers, to)?,
        listing,
    })
}

/// A step of an image, which is the word behind the first one.
fn image_step<'a>(numbers: &[Number], first: &str, rest: &'a str) -> Option<Step<'a>> {
    let (image, rest) = cut(rest);
    match first {
        "image" => {
            let lines = number_or(numbers, rest, LINES)?;
            Some(Step::Blank { image, lines })
        }
        "stop" => {
            let (pick, left) = cut(rest);
            let pick = number_of(numbers, pick)?;
            Some(Step::Stop { image, pick, left })
        }
        "word" => word_step(numbers, image, rest),
        "same" => Some(Step::Same { image, other: rest }),
        "left" => left_step(numbers, image, rest),
        "judge" => judge_step(numbers, image, rest),
        "recover" => Some(Step::Recover { image }),
        _ => None,
    }
}

fn command_step<'a>(first: &str, rest: &'a str) -> Option<Command<'a>> {
    let (device, rest) = cut(rest);
    match first {
        "run" => Some(Command::Run {
            device,
            listing: rest,
        }),
        "call" => Some(Command::Call {
            device,
            words: rest,
        }),
        "compact" => Some(Command::Compact {
            old: device,
            fresh: rest,
        }),
        "audit" => {
            let (after, main) = cut(rest);
            Some(Command::Audit {
                before: device,
                after,
                main,
            })
        }
        _ => None,
    }
}

fn given_step<'a>(numbers: &[Number], first: &str, rest: &'a str) -> Option<Given<'a>> {
    match first {
        "listed" => Some(Given::Listed(rest)),
        "plain" => Some(Given::Plain(rest)),
        "bytes" => Some(Given::Bytes {
            texts: rest,
            times: 1,
        }),
        "copies" => {
            let (times, texts) = cut(rest);
            let times = number_of(numbers, times)?;
            Some(Given::Bytes { texts, times })
        }
        "zeros" => {
            let (count, size) = cut(rest);
            let count = number_of(numbers, count)?;
            let size = number_or(numbers, size, count)?;
            Some(Given::Zeros { count, size })
        }
        "history" => Some(Given::History),
        "record" => Some(Given::Record(rest)),
        _ => None,
    }
}

fn fails_step<'a>(numbers: &[Number], rest: &'a str) -> Option<Step<'a>> {
    let (name, rest) = cut(rest);
    let (call, once) = cut(rest);
    let what = match name {
        "source" => Fails::Source,
        "records" => Fails::Records,
        "sink" => Fails::Sink,
        image => Fails::Image(image),
    };
    Some(Step::Fails {
        what,
        call: number_of(numbers, call)?,
        once: once == "once",
    })
}

fn shown_step(numbers: &[Number], first: &str, rest: &str) -> Option<Shown> {
    match first {
        "acts" => Some(Shown::Acts),
        "turns" => Some(Shown::Turns),
        "counts" => Some(Shown::Counts),
        "saved" => Some(Shown::Saved),
        "guard" => {
            let (object, index) = cut(rest);
            let object = u32::try_from(number_of(numbers, object)?).ok()?;
            let index = u32::try_from(number_of(numbers, index)?).ok()?;
            Some(Shown::Guard { object, index })
        }
        _ => None,
    }
}

/// A step beside those of images and commands.
fn other_step<'a>(numbers: &[Number], first: &str, rest: &'a str) -> Option<Step<'a>> {
    let (word, behind) = cut(rest);
    match first {
        "fails" => fails_step(numbers, rest),
        "sink" => Some(Step::Sink {
            most: number_of(numbers, rest)?,
        }),
        "cut" => Some(Step::Cut {
            from: number_of(numbers, word)?,
            to: number_of(numbers, behind)?,
        }),
        "count" => Some(Step::Count {
            acts: number_of(numbers, rest)?,
        }),
        "mark" => {
            let (op, which) = cut(behind);
            Some(Step::Mark {
                name: word,
                op,
                which: number_or(numbers, which, 1)?,
            })
        }
        _ => None,
    }
}

/// The step of a line.
pub(crate) fn step_of<'a>(numbers: &[Number], line: &'a str) -> Option<Step<'a>> {
    let (first, rest) = cut(line);
    if let Some(command) = command_step(first, rest) {
        return Some(Step::Do(command));
    }
    if let Some(given) = given_step(numbers, first, rest) {
        return Some(Step::Give(given));
    }
    if let Some(shown) = shown_step(numbers, first, rest) {
        return Some(Step::Show(shown));
    }
    if let Some(step) = image_step(numbers, first, rest) {
        return Some(step);
    }
    other_step(numbers, first, rest)
}

/// How often a row is played, by the number `n`: from the first number by steps of one or more, up to the second.
#[derive(Clone, Copy)]
pub(crate) struct Times {
    pub(crate) from: u64,
    pub(crate) step: u64,
    pub(crate) count: u64,
}

/// The name of a row, and how often it is played; with no number, once.
pub(crate) fn header<'a>(line: &'a str) -> (&'a str, Option<Times>) {
    let (name, rest) = cut(line);
    let (from, rest) = cut(rest);
    let (to, step) = cut(rest);
    (name, times_of(from, to, step))
}

fn times_of(from: &str, to: &str, step: &str) -> Option<Times> {
    let from = number_of(&[], from)?;
    let to = number_of(&[], to)?;
    let step = number_or(&[], step, 1)?;
    let count = to.saturating_sub(from).checked_div(step)?.saturating_add(1);
    Some(Times { from, step, count })
}
