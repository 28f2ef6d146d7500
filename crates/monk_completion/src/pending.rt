//! What is not yet known of the last event of a log.

use monk_history::Event;

/// What is not yet known of the last event of a log.
#[derive(Clone, Copy)]
pub(crate) enum Pending {
    /// Nothing: each event is known.
    Settled,
    /// A signal by which its caller leaves or waits. Its second line is still to come. The seat and the condition.
    Half(u8, u8),
    /// A release whose choice the next line shows. Until then its choice is `stay`.
    Release(Event),
}
