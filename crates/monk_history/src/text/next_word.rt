//! The first word of a next.

/// Which next it is.
#[derive(Clone, Copy)]
pub(crate) enum NextWord {
    Stay,
    Entry,
    Waiter,
    Signaller,
    Until,
}
