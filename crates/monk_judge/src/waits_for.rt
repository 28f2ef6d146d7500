//! What the waiters on a condition wait for.

/// The waiters on the condition wait until the predicate of the object holds. So if it holds,
/// somebody has to be signalled there. If several predicates are given for one condition, each
/// waiter there waits for one of them. So somebody has to be signalled there if all of them hold.
#[derive(Clone, Copy, Debug, PartialEq, Eq)]
pub struct WaitsFor {
    /// The condition, from 0. If a log has fewer conditions, nobody waits there.
    pub cond: u8,
    /// The predicate, from 0. If the object doesn't have it, it never holds.
    pub pred: u8,
}
