use monk_kinds::KindName;

/// Who works in a run of a sample.
#[derive(Clone, Copy)]
pub struct Crew {
    /// The kind of their monitor.
    pub kind: KindName,
    /// How many seats they have, 2 to 16.
    pub seats: u8,
    /// How many rounds each of them makes, 1 to 1000.
    pub rounds: u32,
}
