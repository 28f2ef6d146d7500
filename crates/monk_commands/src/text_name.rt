//! The texts that the commands read.

use crate::task::Task;
use std::fmt;

/// The newest version of a history and of a play.
const NEWEST: u8 = 3;

/// The newest version of a log.
const NEWEST_OF_LOGS: u8 = 2;

/// A text that a command reads.
#[derive(Clone, Copy, Debug, PartialEq, Eq)]
pub enum TextName {
    /// A history: events, each with its choice.
    History,
    /// A play: commands of seats, one atomic step each.
    Play,
    /// A log: events without the choices of the scheduler.
    Log,
}

impl TextName {
    /// Returns the text whose first word this is, byte for byte, or `None` if there is none.
    pub fn of_word(word: &[u8]) -> Option<TextName> {
        match word {
            b"monk" => Some(TextName::History),
            b"play" => Some(TextName::Play),
            b"log" => Some(TextName::Log),
            _ => None,
        }
    }

    /// Returns its newest version.
    pub(crate) fn newest_version(self) -> u8 {
        match self {
            TextName::History | TextName::Play => NEWEST,
            TextName::Log => NEWEST_OF_LOGS,
        }
    }

    /// Returns its first line, as it is in version 1.
    pub(crate) fn first_line(self) -> &'static str {
        match self {
            TextName::History => "monk 1 KIND SEATS CONDS OBJECT SIZE",
            TextName::Play => "play 1 KIND SEATS CONDS OBJECT SIZE BUDGET",
            TextName::Log => "log 1 SEATS CONDS OBJECT SIZE",
        }
    }

    /// Returns the commands that read it.
    pub(crate) fn commands(self) -> &'static str {
        match self {
            TextName::History => "monk audit, explain, draw, page, fit or upgrade",
            TextName::Play => "monk play or trace",
            TextName::Log => "monk fit, explain, draw, page or complete",
        }
    }

    /// Whether the task reads it.
    pub fn is_read_by(self, task: &Task<'_>) -> bool {
        match task {
            Task::Audit | Task::Upgrade => self == TextName::History,
            Task::Play | Task::Trace => self == TextName::Play,
            Task::Complete(_) => self == TextName::Log,
            Task::Fit(..) | Task::Explain(_) | Task::Draw(_) | Task::DrawText(..) | Task::Page(_) =>
                self != TextName::Play,
        }
    }

    /// Returns the text that the task reads, or a history if it reads two.
    pub fn wanted_by(task: &Task<'_>) -> TextName {
        match task {
            Task::Play | Task::Trace => TextName::Play,
            Task::Complete(_) => TextName::Log,
            _ => TextName::History,
        }
    }
}

/// Prints it with its article: `a history`.
impl fmt::Display for TextName {
    fn fmt<W: fmt::Write>(&self, f: &mut fmt::Formatter<W>) -> fmt::Result {
        match *self {
            TextName::History => write!(f, "a history"),
            TextName::Play => write!(f, "a play"),
            TextName::Log => write!(f, "a log"),
        }
    }
}
