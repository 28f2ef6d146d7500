//! The answer for a history.

use crate::data::Data;
use crate::forbidden::ForbiddenEvent;
use crate::refused::Refused;
use crate::rules::{Ranks, mode_word};
use crate::said::{SaidEvent, SaidTurn};
use crate::standing::Standing;
use monk_audit::{Verdict, rules_by_name};
use monk_kinds::KindName;
use monk_object::ObjectName;
use std::fmt;

/// The answer for a history: the verdict, the state of the monitor, and what is wrong.
#[derive(Debug, Drop)]
pub struct Telling {
    /// The kind of the monitor.
    pub kind: KindName,
    /// Which object the monitor guards.
    pub object: ObjectName,
    /// Whether the history is legal, or which event is the first that is not allowed.
    pub verdict: Verdict,
    /// The state of the monitor before that event, or after all events of a legal history.
    pub standing: Standing,
    /// The acts that the object refused up to there.
    pub refused: Refused,
    /// What is wrong with that event.
    pub blame: Option<ForbiddenEvent>,
}

/// Prints the lines after the verdict's: for a forbidden history, which event it is. Then the kind
/// with its mode and priorities, the turn, who is inside, the data, also in words, the refused acts
/// and the queues. For a forbidden history, also what the event's reason adds, and why.
impl fmt::Display for Telling {
    fn fmt<W: fmt::Write>(&self, f: &mut fmt::Formatter<W>) -> fmt::Result {
        if let Some(blame) = &self.blame {
            let line = u64::from(blame.step) + 1;
            write!(f, "line: {line}\nevent: {}\n", SaidEvent(blame.event))?;
        }
        let rules = rules_by_name(self.kind);
        let (kind, mode, ranks) = (self.kind.as_str(), mode_word(rules.mode), Ranks(rules));
        write!(f, "kind: {kind} {mode} {ranks}\n")?;
        let standing = &self.standing;
        let (turn, inside) = (SaidTurn(standing.turn), &standing.inside);
        write!(f, "turn: {turn}\ninside:{inside}\n")?;
        let data = Data(self.object, &standing.data);
        let (refused, queues) = (&self.refused, &standing.queues);
        write!(f, "data:{data}\n{refused}{queues}")?;
        match &self.blame {
            Some(blame) => write!(f, "{blame}"),
            None => Ok(()),
        }
    }
}
