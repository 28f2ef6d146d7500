//! Where a thread of a log is, and how it came there.

use monk_judge::Place;

/// A signal that woke a thread.
#[derive(Clone, Copy)]
pub(crate) struct WokenBy {
    /// Who sent it.
    pub(crate) seat: u8,
    /// The index of its line after the header.
    pub(crate) line: usize,
}

/// Where a thread is, and how it came there.
#[derive(Clone, Copy)]
pub(crate) struct Trail {
    /// Where it is.
    pub(crate) place: Place,
    /// Since which line it is there, by its index after the header; `None` if it has been there from the start.
    pub(crate) since: Option<usize>,
    /// The last signal that woke it; `None` if no signal did since its last wait.
    pub(crate) woken: Option<WokenBy>,
    /// The line with which it waited last.
    pub(crate) waited: Option<usize>,
    /// How many signals and broadcasts have come to its condition since then.
    pub(crate) signals: usize,
}

impl Trail {
    /// It is outside, and was nowhere else.
    pub(crate) const START: Trail = Trail {
        place: Place::Outside,
        since: None,
        woken: None,
        waited: None,
        signals: 0,
    };

    /// The thread is there since that line.
    pub(crate) fn go(&mut self, place: Place, line: usize) {
        self.place = place;
        self.since = Some(line);
    }

    /// A signal or a broadcast to the condition wakes it.
    pub(crate) fn wake(&mut self, cond: u8, by: WokenBy) {
        self.go(Place::Woken(cond), by.line);
        self.woken = Some(by);
    }

    /// Its wait ends though nobody sent a signal: it runs out, or the thread wakes unasked.
    pub(crate) fn end_wait(&mut self, runs_out: bool) {
        match self.place {
            Place::Waiting(cond) if runs_out => self.place = Place::RanOut(cond),
            Place::Waiting(cond) => self.place = Place::Woken(cond),
            _ => {}
        }
    }
}
