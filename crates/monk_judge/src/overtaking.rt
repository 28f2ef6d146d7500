//! Threads that were overtaken on their way back, and what they do next.

ghost use Rattle.std.specs.Prelude.{◌≡◌, ◌<◌, ◌^◌};
ghost use Rattle.monk_judge.specs.{Among.Decides, Overtaken.GoesOnBy, Overtaken.is_refused};
ghost use Rattle.monk_judge.specs.Hints.{ComesBack, AnswersOwn, without};

use monk_logs::LogLine;

/// A thread that came back overtaken, and has written no line since, but for acts that were refused.
#[derive(Clone, Copy, Debug, PartialEq, Eq)]
pub(crate) struct Back {
    pub(crate) seat: u8,
    pub(crate) cond: u8,
    /// The line with which it came back, counted from 0 after the header.
    pub(crate) line: usize,
}

/// How many threads came back overtaken, and what they did next.
#[derive(Clone, Copy, Debug, PartialEq, Eq)]
pub(crate) struct Hints {
    /// The last of them, if it has done nothing since but acts that were refused.
    pub(crate) back: Option<Back>,
    pub(crate) many: u64,
    /// How many of them waited again.
    pub(crate) again: u64,
    /// The line with which the first that didn't came back.
    pub(crate) first_not_again: Option<usize>,
}

impl Hints {
    /// Before any line.
    pub(crate) const NONE: Hints = Hints {
        back: None,
        many: 0,
        again: 0,
        first_not_again: None,
    };

    /// Notes what a seat that came back overtaken does next, if the line is that seat's and no
    /// refused act.
    pub(crate) fn go_on(self, line: LogLine) -> Hints
        requires { self.again < 2 ^ 63 }
        ensures goes { AnswersOwn line self result }
        ensures many { result.many ≡ self.many }
    {
        let Some(back) = self.back else {
            return self;
        };
        if !goes_on_by(line, back.seat) {
            return self;
        }
        if line != LogLine::Wait(back.seat, back.cond) {
            return Hints { back: None, ..self };
        }
        Hints {
            back: None,
            many: self.many,
            again: self.again + 1,
            first_not_again: without(self.first_not_again, back.line),
        }
    }

    /// Notes that the thread of the line with that index comes back. It was overtaken if `on` names a condition.
    pub(crate) fn come_back(self, line: LogLine, index: usize, on: Option<u8>) -> Hints
        requires { self.many < 2 ^ 63 }
        ensures { ComesBack line index on self result }
    {
        let Some(cond) = on else {
            return self;
        };
        let seat = line.seat();
        let line = index;
        Hints {
            back: Some(Back { seat, cond, line }),
            many: self.many + 1,
            again: self.again,
            first_not_again: self.first_not_again.or(Some(line)),
        }
    }
}

/// Whether the line is the seat's, and no refused act.
fn goes_on_by(line: LogLine, seat: u8) -> bool
    ensures { Decides result (GoesOnBy line seat) }
{
    line.seat() == seat && !is_refused(line)
}

/// Whether the object refused the line's act, as it does if a thread tests and can't go on.
fn is_refused(line: LogLine) -> bool
    ensures { result ≡ is_refused line }
{
    match line {
        LogLine::Act(_, _, reply) => reply == 0,
        LogLine::Enter(_)
        | LogLine::Resume(_)
        | LogLine::Lapse(_)
        | LogLine::Leave(_)
        | LogLine::Wait(..)
        | LogLine::Signal(..)
        | LogLine::Broadcast(..)
        | LogLine::Until(..) => false,
    }
}

/// Returns the named line, unless it is `line`.
fn without(named: Option<usize>, line: usize) -> Option<usize>
    ensures { result ≡ without named line }
{
    match named {
        Some(first) if first != line => Some(first),
        Some(_) | None => None,
    }
}
