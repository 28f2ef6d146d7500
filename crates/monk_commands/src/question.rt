//! How a text is to be judged.

use monk_judge::WaitsFor;
use monk_kinds::KindName;

/// How a text is to be judged, and what else is known about it.
#[derive(Clone, Copy)]
pub struct Question<'a> {
    /// The only kind under which to judge a history. If there is none, that of its header or each of the ten. A
    /// log is judged by the rules of NPNB: other kinds are refused for it.
    pub kind: Option<KindName>,
    /// For logs alone: for which predicates the threads on a condition wait.
    pub means: &'a [WaitsFor],
    /// The name of the text in the answer.
    pub name: &'a str,
    /// The text of the file that its recorder wrote beside a log, or empty if there is none.
    pub beside: &'a [u8],
    /// Whether the program of the log ended by itself ([`ended_by_itself`](crate::ended_by_itself)). Then it isn't
    /// stuck, so a thread that holds the lock at its end is no fault.
    pub has_ended: bool,
}
