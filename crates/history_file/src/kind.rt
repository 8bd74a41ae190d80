//! The kinds of acts.

ghost use Rattle.std.specs.Prelude.{◌≡◌};
ghost use Rattle.history_file.specs.Kinds.{kind_with, kind_of, code_of, fewest, most, may_have};

use run_history::Op;

/// What an act is, without its fields.
#[derive(Clone, Copy)]
pub(crate) enum Kind {
    Pause = 1,
    Alloc = 2,
    Read = 3,
    Stored = 4,
    Length = 5,
    Class = 6,
    Same = 7,
    Enter = 8,
    Exit = 9,
    Start = 10,
    Join = 11,
    Init = 12,
    Print = 13,
    Throw = 14,
    Begin = 15,
    End = 16,
    Ended = 17,
    Asked = 18,
    Joined = 19,
    Guarded = 20,
    Closing = 21,
    Fenced = 22,
}

impl Kind {
    /// The kind with this code, `None` exactly where no kind has it.
    pub(crate) fn with_code(code: u8) -> Option<Kind>
        ensures { result ≡ kind_with code }
    {
        match code {
            1 => Some(Kind::Pause),
            2 => Some(Kind::Alloc),
            3 => Some(Kind::Read),
            4 => Some(Kind::Stored),
            5 => Some(Kind::Length),
            6 => Some(Kind::Class),
            7 => Some(Kind::Same),
            8 => Some(Kind::Enter),
            9 => Some(Kind::Exit),
            10 => Some(Kind::Start),
            11 => Some(Kind::Join),
            12 => Some(Kind::Init),
            13 => Some(Kind::Print),
            14 => Some(Kind::Throw),
            15 => Some(Kind::Begin),
            16 => Some(Kind::End),
            17 => Some(Kind::Ended),
            18 => Some(Kind::Asked),
            19 => Some(Kind::Joined),
            20 => Some(Kind::Guarded),
            21 => Some(Kind::Closing),
            22 => Some(Kind::Fenced),
            _ => None,
        }
    }

    /// The kind of an operation.
    pub(crate) fn of(op: &Op) -> Kind
        ensures { result ≡ kind_of op.now }
    {
        match op {
            Op::Pause => Kind::Pause,
            Op::Alloc { .. } => Kind::Alloc,
            Op::Read { .. } => Kind::Read,
            Op::Stored { .. } => Kind::Stored,
            Op::Length { .. } => Kind::Length,
            Op::Class { .. } => Kind::Class,
            Op::Same { .. } => Kind::Same,
            Op::Enter { .. } => Kind::Enter,
            Op::Exit { .. } => Kind::Exit,
            Op::Start { .. } => Kind::Start,
            Op::Join { .. } => Kind::Join,
            Op::Init { .. } => Kind::Init,
            Op::Print { .. } => Kind::Print,
            Op::Throw { .. } => Kind::Throw,
            Op::Begin => Kind::Begin,
            Op::End => Kind::End,
            Op::Ended { .. } => Kind::Ended,
            Op::Asked { .. } => Kind::Asked,
            Op::Joined => Kind::Joined,
            Op::Guarded { .. } => Kind::Guarded,
            Op::Closing => Kind::Closing,
            Op::Fenced => Kind::Fenced,
        }
    }

    /// Its code.
    pub(crate) fn code(self) -> u8
        ensures { result ≡ code_of self }
    {
        self as u8
    }

    /// The fewest words of an act of this kind.
    pub(crate) fn fewest(self) -> u32
        ensures { result ≡ fewest self }
    {
        match self {
            Kind::Pause | Kind::Begin | Kind::End | Kind::Closing | Kind::Fenced => 2,
            Kind::Same | Kind::Join | Kind::Ended | Kind::Joined => 3,
            Kind::Length | Kind::Class | Kind::Enter | Kind::Exit | Kind::Start => 4,
            Kind::Init | Kind::Print | Kind::Throw | Kind::Guarded => 4,
            Kind::Alloc => 5,
            Kind::Read | Kind::Stored | Kind::Asked => 6,
        }
    }

    // The most words of an act of this kind.
    fn most(self) -> u32
        ensures { result ≡ most self }
    {
        match self {
            Kind::Guarded => 5,
            Kind::Print => 6,
            Kind::Read | Kind::Stored | Kind::Asked => 7,
            Kind::Joined => u32::MAX,
            _ => self.fewest(),
        }
    }

    /// Whether an act of this kind may have so many words.
    pub(crate) fn may_have(self, words: u32) -> bool
        ensures { result ≡ may_have self words }
    {
        self.fewest() <= words && words <= self.most()
    }
}
