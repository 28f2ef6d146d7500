//! The verdict on a log.

use crate::blame::Blame;

/// The verdict on a log under a kind of monitor and an order of its queues.
#[derive(Clone, Copy, Debug, PartialEq, Eq)]
pub enum LogVerdict {
    /// Some legal history begins with the log.
    Fits,
    /// The first line with which none begins, and the reason. Lines are counted from 1 after the
    /// log's header.
    Misfit { line: u32, blame: Blame },
}
