//! What the options of `fit` and `explain` name, but the input doesn't have.

use crate::hint::line_at;
use crate::task::Task;
use crate::text_name::TextName;
use monk_history::lines::{Head, LineWords};
use monk_judge::WaitsFor;
use monk_logs::LogHeader;
use monk_object::{Book, Buffer, Flags, Guarded, ObjectName, Shop};
use std::fmt;
use thiserror::Error;

/// What the options of `fit` and `explain` name, but the input doesn't have. It prints itself as one sentence.
#[derive(Clone, Copy, Debug, PartialEq, Eq, Error)]
pub enum OptionHint {
    /// The log has no such condition.
    #[error("--means {}={}: the log has no condition {}; it has {}", .meaning.cond, .meaning.pred, .meaning.cond, HowMany(*.conds))]
    Condition {
        /// The option's value that names the condition.
        meaning: WaitsFor,
        /// How many conditions the log has, 0 to 8.
        conds: u8,
    },
    /// The object of the log has no such predicate.
    #[error("--means {}={}: {} has no predicate {}; it has {}", .meaning.cond, .meaning.pred, called(*.object), .meaning.pred, HowMany(predicates(*.object)))]
    Predicate {
        /// The option's value that names the predicate.
        meaning: WaitsFor,
        /// The object.
        object: ObjectName,
    },
    /// The input is a history, and the options are for logs.
    #[error("--means is for logs, and this is a history")]
    History,
}

/// How many conditions or predicates there are.
#[derive(Clone, Copy)]
struct HowMany(u8);

impl fmt::Display for HowMany {
    fn fmt<W: fmt::Write>(&self, f: &mut fmt::Formatter<W>) -> fmt::Result {
        match self.0 {
            0 => write!(f, "none"),
            number => write!(f, "{number}, counted from 0"),
        }
    }
}

/// Returns the object with its article.
fn called(object: ObjectName) -> &'static str {
    match object {
        ObjectName::Buffer => "a buffer",
        ObjectName::Book => "a book",
        ObjectName::Shop => "a shop",
        ObjectName::Flags => "an object of flags",
    }
}

/// Returns the hint for an input that the task has read, from the front of the input. It is `None` if the task has
/// no such options, or if the input has all that they name.
///
/// For a log the first line says how many conditions there are, and which object. The first of the meanings whose
/// condition or predicate isn't there decides. In one meaning the condition goes first. For a history there is a
/// hint if an option is given.
///
/// # Cost
///
/// One pass over the first line and one over the meanings. No memory is taken.
pub fn option_hint_for(task: &Task<'_>, front: &[u8]) -> Option<OptionHint> {
    let (Task::Fit(_, question) | Task::Explain(question)) = *task else {
        return None;
    };
    let line = line_at(front, 0)?;
    match TextName::of_word(LineWords::of(line).next()?)? {
        TextName::History if !question.means.is_empty() => Some(OptionHint::History),
        TextName::History | TextName::Play => None,
        TextName::Log => log_hint(question.means, line),
    }
}

/// Returns the hint from the first line of a log: it has no such condition, or its object no such predicate.
fn log_hint(means: &[WaitsFor], line: &[u8]) -> Option<OptionHint> {
    let header = LogHeader::parse(&mut LineWords::of(line)).ok()?;
    let (conds, object) = (header.conds(), header.object());
    for meaning in means {
        let meaning = *meaning;
        if meaning.cond >= conds {
            return Some(OptionHint::Condition { meaning, conds });
        }
        if meaning.pred >= predicates(object) {
            return Some(OptionHint::Predicate { meaning, object });
        }
    }
    None
}

fn predicates(object: ObjectName) -> u8 {
    match object {
        ObjectName::Buffer => Buffer::PREDICATES,
        ObjectName::Book => Book::PREDICATES,
        ObjectName::Shop => Shop::PREDICATES,
        ObjectName::Flags => Flags::PREDICATES,
    }
}
