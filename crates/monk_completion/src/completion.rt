//! What a log becomes after its choices are known.

use crate::blame::Blame;
use monk_history::Event;

/// What a log becomes under a kind of monitor, with queues in order of arrival.
#[derive(Debug, Drop)]
pub enum Completion {
    /// The events of a legal history that tells the log.
    History(Vec<Event>),
    /// No legal history begins with the log: the first line with which none begins, and the reason.
    /// Lines are counted from 1 after the log's header.
    Misfit { line: u32, blame: Blame },
}
