//! What a release chooses from, and what it may choose.

use crate::lists::{FrontList, Nexts};
use std::fmt;

/// What a release chooses from, and what it may choose.
#[derive(Debug, Drop)]
pub struct Choice {
    /// The first seats of the waiter queue, the signaller queue and the ready seats, in this order,
    /// after the event's own moves. An empty one has none.
    pub fronts: FrontList,
    /// Each next that is permitted, in the order stay, entry, waiter, signaller, until.
    pub may: Nexts,
}

/// Prints two lines.
impl fmt::Display for Choice {
    fn fmt<W: fmt::Write>(&self, f: &mut fmt::Formatter<W>) -> fmt::Result {
        let (fronts, may) = (&self.fronts, &self.may);
        write!(f, "fronts:{fronts}\n")?;
        write!(f, "may: {may}\n")
    }
}
