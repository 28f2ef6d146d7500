//! The form that an unreadable line should have.

use crate::hint::line_at;
use crate::line_form::LineSet;
use crate::task::Task;
use crate::text_name::TextName;
use monk_history::lines::{CheckedLines, Flaw, LineWords};
use monk_history::{Event, Header, MOST_LINES, ReadFault};
use monk_logs::LogLines;
use monk_world::PlayLines;
use std::fmt;

/// The form that an unreadable line should have. It prints itself as one sentence.
#[derive(Clone, Copy, Debug, PartialEq, Eq)]
pub struct LineHint {
    /// Which line it is. The first line of the text has number 1.
    pub line: u32,
    /// The lines that the text may have.
    pub lines: LineSet,
    /// The form of the lines that begin as it does, or `None` if none does.
    pub form: Option<&'static str>,
    /// What is wrong: a word or a number.
    pub flaw: Flaw,
}

/// Returns the hint for an input that the task can't read, from the front of the input. It is `None`
/// if no line of the front is at fault, or only the first.
///
/// # Cost
///
/// At most three passes over the front. No memory is taken.
pub fn line_hint_for(task: &Task<'_>, front: &[u8]) -> Option<LineHint> {
    let mut words = LineWords::of(line_at(front, 0)?);
    let text = TextName::of_word(words.next()?)?;
    if !text.is_read_by(task) {
        return None;
    }
    let lines = LineSet::of(text, words.next()?);
    let fault = fault_in(text, front)?;
    let flaw = match fault.number {
        ReadFault::WORD => Flaw::Word,
        ReadFault::NUMBER => Flaw::Number,
        _ => return None,
    };
    if fault.line < 2 {
        return None;
    }
    Some(LineHint {
        line: fault.line,
        lines,
        form: form_at(lines, front, fault.line),
        flaw,
    })
}

fn fault_in(text: TextName, front: &[u8]) -> Option<ReadFault> {
    match text {
        TextName::History => CheckedLines::<Header, Event>::check(front, MOST_LINES).err(),
        TextName::Play => PlayLines::check(front).err(),
        TextName::Log => LogLines::check(front).err(),
    }
}

/// Returns the form that a line should have, by the word that names it. The first line has number 1.
fn form_at(lines: LineSet, front: &[u8], line: u32) -> Option<&'static str> {
    let line = line_at(front, line.saturating_sub(1) as usize)?;
    lines.form(lines.naming_word(LineWords::of(line))?)
}

/// Prints one sentence, without a line end: which line it is, and what it should be.
impl fmt::Display for LineHint {
    fn fmt<W: fmt::Write>(&self, f: &mut fmt::Formatter<W>) -> fmt::Result {
        write!(f, "line {} should ", self.line)?;
        match self.form {
            Some(form) => write!(f, "be `{form}`")?,
            None => write!(f, "{}", self.lines.beginnings())?,
        }
        write!(f, "{}", number_words(self.flaw))
    }
}

/// Returns what is said about numbers, if one is wrong.
fn number_words(flaw: Flaw) -> &'static str {
    match flaw {
        Flaw::Word => "",
        Flaw::Number => {
            "; SEAT, COND, PRED and CODE are 0 to 255, ARG is at most 4294967295, REPLY at most 18446744073709551615"
        }
    }
}
