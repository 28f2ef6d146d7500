//! What to do about an input that a command can't read.

use crate::task::Task;
use crate::text_name::TextName;
use monk_history::lines::{Flaw, LineWords};
use monk_history::{MOST_CONDS, MOST_SEATS};
use monk_kinds::KindName;
use monk_object::ObjectName;
use thiserror::Error;

/// What is odd about an input that a command can't read. It prints itself as one sentence that says what to do.
#[derive(Clone, Copy, Debug, PartialEq, Eq, Error)]
pub enum Hint {
    /// The input is empty. This text is wanted.
    #[error("the input is empty: {} begins with `{}`", .0, .0.first_line())]
    Empty(TextName),
    /// It begins with a byte-order mark, of UTF-8 or UTF-16.
    #[error("a byte-order mark stands in front: save the text as UTF-8 without one")]
    Mark,
    /// It has a control character, so it is no text.
    #[error("the input is binary: a text has printable characters alone")]
    Binary,
    /// A line ends in a carriage return.
    #[error("a line ends in CR LF: end each line in LF alone")]
    Return,
    /// It is this text, which the command doesn't read.
    #[error("this is {}: give it to {}", .0, .0.commands())]
    Another(TextName),
    /// The header has a version that this text doesn't have.
    #[error("there is no such version: {} begins with `{}`", .0, .0.first_line())]
    Version(TextName),
    /// The kind in the header isn't in capital letters. This kind is meant.
    #[error("a kind has capital letters: did you mean {}?", .0.as_str())]
    Capitals(KindName),
    /// The header names no kind.
    #[error("there is no such kind: the kinds are PB, NPB, PNB, NPNB, PQB, NPQB, PIR, NPIR, PIS, NPIS")]
    NoKind,
    /// The number of seats in the header is out of range.
    #[error("the number of seats is out of range: 1 to {}", MOST_SEATS)]
    Seats,
    /// The number of conditions in the header is out of range.
    #[error("the number of conditions is out of range: 0 to {}", MOST_CONDS)]
    Conds,
    /// The header names no object.
    #[error("there is no such object: the objects are buffer, book, shop, flags")]
    NoObject,
    /// The size in the header is out of range for this object.
    #[error("the size is out of range: that of {}{} is 1 to {}", article(*.0), .0.as_str(), .0.greatest_size())]
    Size(ObjectName),
    /// A line begins with `#`.
    #[error("a line begins with #: a text has no comments")]
    Comment,
    /// A line has no bytes.
    #[error("a line is blank: a text has no blank lines")]
    Blank,
    /// The first line is no header. This text is wanted.
    #[error("the first line is no header: {} begins with `{}`", .0, .0.first_line())]
    NoHeader(TextName),
}

/// Returns the article before the object's word in a sentence. Flags have none, because the word is a plural.
fn article(object: ObjectName) -> &'static str {
    match object {
        ObjectName::Buffer | ObjectName::Book | ObjectName::Shop => "a ",
        ObjectName::Flags => "",
    }
}

/// Returns the hint for an input that the task can't read, from the front of the input, or `None` if the front has
/// nothing that a hint names.
///
/// The first of these that the front has decides: no bytes, a byte-order mark, a control character, a carriage
/// return, a header of another text, a header with a wrong version, kind, seats, conditions, object or size (in
/// this order), a line that begins with `#`, a line with no bytes, a first line that begins as none of the three
/// texts.
///
/// # Cost
///
/// At most five passes over the front. No memory is taken.
pub fn hint_for(task: &Task<'_>, front: &[u8]) -> Option<Hint> {
    if let Some(hint) = bytes_hint(task, front) {
        return Some(hint);
    }
    let line = line_at(front, 0);
    if let Some(hint) = header_hint(task, line) {
        return Some(hint);
    }
    if begins_line(front, b'#') {
        return Some(Hint::Comment);
    }
    if begins_line(front, b'\n') {
        return Some(Hint::Blank);
    }
    no_header_hint(task, line)
}

/// Returns the hint that single bytes give.
fn bytes_hint(task: &Task<'_>, front: &[u8]) -> Option<Hint> {
    if front.is_empty() {
        Some(Hint::Empty(TextName::wanted_by(task)))
    } else if has_mark(front) {
        Some(Hint::Mark)
    } else if front.iter().any(|byte| is_control(*byte)) {
        Some(Hint::Binary)
    } else if front.contains(&b'\r') {
        Some(Hint::Return)
    } else {
        None
    }
}

/// Whether the input begins with a byte-order mark.
fn has_mark(front: &[u8]) -> bool {
    front.starts_with(&[0xEF, 0xBB, 0xBF])
        || front.starts_with(&[0xFF, 0xFE])
        || front.starts_with(&[0xFE, 0xFF])
}

/// Whether it is a control character other than a tab, a line feed or a carriage return.
fn is_control(byte: u8) -> bool {
    byte < b' ' && byte != b'\t' && byte != b'\n' && byte != b'\r'
}

/// Returns the line of that number, from 0.
pub(crate) fn line_at(front: &[u8], number: usize) -> Option<&[u8]> {
    front.split(|byte| *byte == b'\n').nth(number)
}

/// Whether a line begins with that byte.
fn begins_line(bytes: &[u8], byte: u8) -> bool {
    let mut before = b'\n';
    for now in bytes {
        if before == b'\n' && *now == byte {
            return true;
        }
        before = *now;
    }
    false
}

/// Whether the next word is no number of that range, or `None` if there is no word.
fn is_out(words: &mut LineWords<'_>, least: u64, greatest: u64) -> Option<bool> {
    match words.number(greatest) {
        Ok(number) => Some(number < least),
        Err(Flaw::Number) => Some(true),
        Err(Flaw::Word) => None,
    }
}

/// Returns the hint from the first line, if it begins as a header.
fn header_hint(task: &Task<'_>, line: Option<&[u8]>) -> Option<Hint> {
    let mut words = LineWords::of(line?);
    let text = TextName::of_word(words.next()?)?;
    if !text.is_read_by(task) {
        return Some(Hint::Another(text));
    }
    if is_out(&mut words, 1, u64::from(text.newest_version()))? {
        return Some(Hint::Version(text));
    }
    if text != TextName::Log {
        if let Some(hint) = kind_hint(words.next()?) {
            return Some(hint);
        }
    }
    guarded_hint(words)
}

/// Returns the hint from the words that begin with the number of seats.
fn guarded_hint(words: LineWords<'_>) -> Option<Hint> {
    let mut words = words;
    if is_out(&mut words, 1, u64::from(MOST_SEATS))? {
        return Some(Hint::Seats);
    }
    if is_out(&mut words, 0, u64::from(MOST_CONDS))? {
        return Some(Hint::Conds);
    }
    let Some(object) = ObjectName::of_text(words.next()?) else {
        return Some(Hint::NoObject);
    };
    if is_out(&mut words, 1, u64::from(object.greatest_size()))? {
        return Some(Hint::Size(object));
    }
    None
}

/// Returns the hint from the word of the kind.
fn kind_hint(word: &[u8]) -> Option<Hint> {
    for kind in KindName::ALL.iter() {
        if word == kind.text() {
            return None;
        }
        if word.eq_ignore_ascii_case(kind.text()) {
            return Some(Hint::Capitals(*kind));
        }
    }
    Some(Hint::NoKind)
}

/// Returns the hint if the first line begins as none of the three texts.
fn no_header_hint(task: &Task<'_>, line: Option<&[u8]>) -> Option<Hint> {
    let word = LineWords::of(line?).next()?;
    match TextName::of_word(word) {
        Some(_) => None,
        None => Some(Hint::NoHeader(TextName::wanted_by(task))),
    }
}
