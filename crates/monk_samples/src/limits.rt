//! The limits of a run.

/// The least number of seats of a run.
pub const LEAST_RUN_SEATS: u8 = 2;
/// The greatest number of seats of a run.
pub const MOST_RUN_SEATS: u8 = 16;
/// The greatest number of rounds of a run; the least is 1.
pub const MOST_ROUNDS: u32 = 1000;
