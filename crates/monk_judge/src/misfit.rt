//! The first line that no run tells.

use crate::blame::Blame;

/// The first line that no run tells.
#[derive(Clone, Copy, Debug, PartialEq, Eq)]
pub struct Misfit {
    /// The line, counted from 0 after the header.
    pub line: usize,
    /// Why it can't follow the lines before it.
    pub why: Blame,
}
