// The choices of threads, as a row's data has them.
use ap_base::ThreadNo;

/// What is told of a line of choices, beside how its last event went.
#[derive(Clone, Copy)]
pub(crate) enum Telling {
    Nothing,
    Acts,
    /// Its acts, and what stops leave within its calls of the image.
    Stops,
}

/// What is told of a line, and its choices; none where it is a comment.
pub(crate) fn line_of(line: &str) -> Option<(Telling, &str)> {
    let (word, choices) = line.split_once(' ')?;
    let telling = match word {
        "skip" => Telling::Nothing,
        "go" => Telling::Acts,
        "stops" => Telling::Stops,
        _ => return None,
    };
    Some((telling, choices))
}

/// A thread that is chosen so often, each time for one event, or up to its next act of this name or its next wait.
#[derive(Clone, Copy)]
pub(crate) struct Choice<'a> {
    pub(crate) thread: ThreadNo,
    pub(crate) name: Option<&'a str>,
    pub(crate) many: u32,
}

fn thread_of(number: &str) -> Option<ThreadNo> {
    ThreadNo::new(number.parse::<u8>().ok()?)
}

// What stands before a star, and the number behind it; one where there is no star.
fn counted(word: &str) -> Option<(&str, u32)> {
    match word.split_once('*') {
        Some((front, number)) => Some((front, number.parse::<u32>().ok()?)),
        None => Some((word, 1)),
    }
}

/// `1` is an event of thread 1, `1*5` are five; `1>Fenced` are those up to its next such act, `1>wait` up to its next
/// wait, and `1>Start*3` up to the third such act.
pub(crate) fn choice_of(word: &str) -> Option<Choice<'_>> {
    let (front, many) = counted(word)?;
    let (thread, name) = match front.split_once('>') {
        Some((thread, name)) => (thread, Some(name)),
        None => (front, None),
    };
    let thread = thread_of(thread)?;
    Some(Choice { thread, name, many })
}
