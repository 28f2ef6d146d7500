use monk_history::{Event, Header};

/// What a run over a buffer in haste leaves.
#[derive(Drop)]
pub struct HastyOutcome {
    /// The number of puts, the sum of their items, the number of takes, the sum of theirs. Refused ones don't count.
    pub totals: [u64; 4],
    /// How many acts were refused, with reply 0: each came too late.
    pub missed: u64,
    /// The step of the first of them, counted from 1 as an audit counts.
    pub first: Option<u32>,
    /// The kind, the seats, the conditions, and the object with its size.
    pub header: Header,
    /// All events of the run, in order.
    pub history: Vec<Event>,
}
