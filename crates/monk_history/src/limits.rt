//! The limits of a monitor and of a text. The crates that use this one keep them too.

/// The most seats of a monitor.
pub const MOST_SEATS: u8 = 32;

/// The most condition variables of a monitor.
pub const MOST_CONDS: u8 = 8;

/// The newest version of a text. The first is 1.
pub(crate) const NEWEST_VERSION: u8 = 3;

/// The first version that has every event.
pub(crate) const ALL_EVENTS_VERSION: u8 = 2;

/// The least number of events of one seat.
pub const LEAST_BUDGET: u32 = 2;

/// The greatest number of events of one seat: 2^20.
pub const MOST_BUDGET: u32 = 1 << 20;

/// The most lines of a text after its first: 2^25.
pub const MOST_LINES: u32 = 1 << 25;

/// The most events of a text.
pub const MOST_EVENTS: u32 = MOST_LINES;
