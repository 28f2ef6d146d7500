//! A seat or a condition, to find the last line about it.

ghost use Rattle.std.specs.Prelude.{◌≡◌};
ghost use Rattle.monk_logs.specs.LastLine as last_lines;

use crate::text::line::LogLine;

/// What a line of a log may be about: a seat or a condition.
#[derive(Clone, Copy, Debug, PartialEq, Eq)]
pub enum Subject {
    /// A seat: each line that it wrote.
    Seat(u8),
    /// A condition: each signal to it, to one or to all who wait there.
    Condition(u8),
}

impl Subject {
    /// Whether the line is about the subject.
    pub fn has(self, line: LogLine) -> bool
        ensures { result ≡ last_lines.has self line }
    {
        match self {
            Subject::Seat(seat) => line.seat() == seat,
            Subject::Condition(cond) => match line {
                LogLine::Signal(_, signalled) | LogLine::Broadcast(_, signalled) => {
                    signalled == cond
                }
                _ => false,
            },
        }
    }
}
