//! Whether a thread that waits does better to look for its grant or to sleep. Only time rests on it: nothing that a
//! contract speaks of is in it, and a thread may read what another is about to change.
use crate::look_tally::LookTally;

/// How often a seat with a ticket looks before its thread sleeps, for each visit that comes before its own: some 3
/// microseconds, about as long as a thread takes to wake.
const LOOKS: u32 = 512;

/// How often a seat looks that waits inside, for each seat of the hall: nobody knows when its turn comes, and each of
/// the others may visit before, and come back.
const INNER_LOOKS: u32 = 1024;

/// The most that a seat looks, some 25 microseconds: a few times what a sleep costs.
const MOST_LOOKS: u32 = 4096;

/// How often a seat looks where that doesn't pay, divided by the square of the number of seats.
const SHORT_LOOKS: u32 = 1024;

/// What a hall knows about the time that its visits take. With more seats than processors nobody looks for long: a
/// thread that looks would keep another from running. Else it depends on how the last looks ended.
#[derive(Drop)]
pub(crate) struct Pace {
    processors: usize,
    entry: LookTally,
    inner: LookTally,
}

impl Pace {
    /// Returns what is known before any visit: there is one processor.
    pub(crate) fn new() -> Pace {
        Pace {
            processors: 1,
            entry: LookTally::new(),
            inner: LookTally::new(),
        }
    }

    /// Says on how many processors threads may run. 0 is taken as 1.
    pub(crate) fn set_processors(&mut self, processors: usize) {
        self.processors = processors;
    }

    fn is_crowded(&self, seats: u8) -> bool {
        usize::from(seats) > self.processors.max(1)
    }

    /// Returns how often the thread of a seat looks before it sleeps, if so many visits come before its own. For a seat
    /// that waits inside that isn't known.
    pub(crate) fn looks_for(&self, seats: u8, visits: Option<u8>) -> u32 {
        let count = u32::from(seats);
        let long = match visits {
            Some(visits) => u32::from(visits) * LOOKS,
            None => count * INNER_LOOKS,
        };
        if !self.is_crowded(seats) && self.pays(visits) {
            return long.min(MOST_LOOKS);
        }
        SHORT_LOOKS / (count * count).max(1) + 1
    }

    fn pays(&self, visits: Option<u8>) -> bool {
        match visits {
            Some(_) => self.entry.pays(),
            None => self.inner.pays() || self.inner.tries_again(),
        }
    }

    /// Whether the grant of a ticket is to wake the thread whose turn comes after, so that it is awake by then.
    pub(crate) fn wakes_ahead(&self, seats: u8) -> bool {
        !self.is_crowded(seats) && (self.entry.pays() || self.entry.tries_again())
    }

    /// Learns from the looks of a thread before whose turn so many visits came. Of those with a ticket only the one
    /// whose turn came next can tell how long a visit takes.
    pub(crate) fn learn(&self, seats: u8, visits: Option<u8>, was_let_in: bool) {
        if self.is_crowded(seats) {
            return;
        }
        match visits {
            Some(1) => self.entry.note(was_let_in),
            Some(_) => {}
            None => self.inner.note(was_let_in),
        }
    }
}
