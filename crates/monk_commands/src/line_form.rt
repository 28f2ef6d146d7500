//! The forms of the lines of a text.

use crate::text_name::TextName;
use monk_history::lines::LineWords;

/// The events of a history in every version.
const EVENTS: [&str; 8] = [
    "enter SEAT (free | handed)",
    "act SEAT CODE ARG REPLY",
    "leave SEAT (stay | entry | waiter SEAT | signaller SEAT | until SEAT)",
    "wait SEAT COND (stay | entry | waiter SEAT | signaller SEAT | until SEAT)",
    "signal SEAT COND (stay | entry | waiter SEAT | signaller SEAT | until SEAT)",
    "signal-leave SEAT COND (stay | entry | waiter SEAT | signaller SEAT | until SEAT)",
    "until SEAT PRED (stay | entry | waiter SEAT | signaller SEAT | until SEAT)",
    "resume SEAT (waiter | signaller | until)",
];

/// The events that all versions but the first have.
const LATER_EVENTS: [&str; 2] = [
    "signal-all SEAT COND",
    "signal-wait SEAT COND COND (stay | entry | waiter SEAT | signaller SEAT | until SEAT)",
];

/// The commands of a play in every version.
const COMMANDS: [&str; 12] = [
    "SEAT arrive",
    "SEAT look",
    "SEAT out",
    "SEAT peek",
    "SEAT drop",
    "SEAT grant",
    "SEAT act CODE ARG",
    "SEAT leave (entry | waiter | signaller)",
    "SEAT wait COND (entry | waiter | signaller)",
    "SEAT signal COND (entry | waiter | signaller)",
    "SEAT signal-leave COND (entry | waiter | signaller)",
    "SEAT until PRED (entry | waiter | signaller)",
];

/// The commands that all versions but the first have.
const LATER_COMMANDS: [&str; 2] = [
    "SEAT signal-all COND",
    "SEAT signal-wait COND COND (entry | waiter | signaller)",
];

const LOG_LINES: [&str; 9] = [
    "enter SEAT",
    "resume SEAT",
    "lapse SEAT",
    "leave SEAT",
    "wait SEAT COND",
    "signal SEAT COND",
    "broadcast SEAT COND",
    "until SEAT PRED",
    "act SEAT CODE ARG REPLY",
];

/// The lines that a text may have after its first. In a history and a play they depend on the
/// version.
#[derive(Clone, Copy, Debug, PartialEq, Eq)]
pub struct LineSet {
    text: TextName,
    is_of_version_1: bool,
}

impl LineSet {
    /// Returns the lines of a text of that name, if this word stands for the version.
    pub(crate) fn of(text: TextName, version: &[u8]) -> LineSet {
        let is_of_version_1 = version == b"1".as_slice();
        LineSet {
            text,
            is_of_version_1,
        }
    }

    /// Returns the word that names a line of these words. In a play it is the word after the seat.
    pub(crate) fn naming_word<'a>(self, words: LineWords<'a>) -> Option<&'a [u8]> {
        let mut words = words;
        if self.text == TextName::Play {
            words.next()?;
        }
        words.next()
    }

    /// Returns the form of the lines that the word names, if it names one.
    pub(crate) fn form(self, word: &[u8]) -> Option<&'static str> {
        match self.text {
            TextName::History => self.form_among(&EVENTS, &LATER_EVENTS, word),
            TextName::Play => self.form_among(&COMMANDS, &LATER_COMMANDS, word),
            TextName::Log => self.form_in(&LOG_LINES, word),
        }
    }

    /// Returns the form that the word names among those of every version, or among the later ones.
    fn form_among(
        self,
        forms: &[&'static str],
        later: &[&'static str],
        word: &[u8],
    ) -> Option<&'static str> {
        let form = self.form_in(forms, word);
        if self.is_of_version_1 || form.is_some() {
            return form;
        }
        self.form_in(later, word)
    }

    /// Returns the form among these that the word names.
    fn form_in(self, forms: &[&'static str], word: &[u8]) -> Option<&'static str> {
        for form in forms {
            if self.naming_word(LineWords::of(form.as_bytes())) == Some(word) {
                return Some(*form);
            }
        }
        None
    }

    /// Returns how lines should begin. It is for a line whose naming word belongs to no form.
    pub(crate) fn beginnings(self) -> &'static str {
        match (self.text, self.is_of_version_1) {
            (TextName::History, true) => {
                "begin with enter, act, leave, wait, signal, signal-leave, until or resume"
            }
            (TextName::History, false) => {
                "begin with enter, act, leave, wait, signal, signal-leave, until, resume, signal-all or signal-wait"
            }
            (TextName::Play, true) => {
                "be SEAT and then arrive, look, out, peek, drop, grant, act, leave, wait, signal, signal-leave or until"
            }
            (TextName::Play, false) => {
                "be SEAT and then arrive, look, out, peek, drop, grant, act, leave, wait, signal, signal-leave, until, signal-all or signal-wait"
            }
            (TextName::Log, _) => {
                "begin with enter, resume, lapse, leave, wait, signal, broadcast, until or act"
            }
        }
    }
}
