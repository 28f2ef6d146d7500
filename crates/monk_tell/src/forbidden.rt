//! What is wrong with an event.

use crate::choice::Choice;
use crate::why::Why;
use monk_history::Event;
use std::fmt;

/// What is wrong with the first event that is not allowed.
#[derive(Debug, Drop)]
pub struct ForbiddenEvent {
    /// Its number, counted from 1.
    pub step: u32,
    /// The event.
    pub event: Event,
    /// The reply that the object would have given, if the event's reply is wrong.
    pub reply: Option<u64>,
    /// What it chose from and what it might have chosen, if its choice is not permitted.
    pub choice: Option<Choice>,
    /// Why it is not allowed, in a sentence.
    pub why: Why,
}

/// Prints what its reason adds, and why, each in lines of its own.
impl fmt::Display for ForbiddenEvent {
    fn fmt<W: fmt::Write>(&self, f: &mut fmt::Formatter<W>) -> fmt::Result {
        if let Some(reply) = self.reply {
            write!(f, "reply: {reply}\n")?;
        }
        if let Some(choice) = &self.choice {
            write!(f, "{choice}")?;
        }
        write!(f, "why: {}\n", self.why)
    }
}
