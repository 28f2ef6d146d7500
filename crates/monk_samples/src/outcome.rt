use monk_history::{Event, Header};

/// What a run leaves: its history under a header, and its totals.
#[derive(Drop)]
pub struct Outcome {
    /// For a buffer: the number of puts, the sum of their items, the number of takes, the sum of theirs. For a book:
    /// reads begun and ended, writes begun and ended. For a shop: who sat, was called, was finished and departed.
    /// Only acts with a reply above 0 count.
    pub totals: [u64; 4],
    /// The kind, the seats, the conditions, and the object with its size.
    pub header: Header,
    /// All events of the run, in order.
    pub history: Vec<Event>,
}
