//! What is found for a log.

ghost use Rattle.std.specs.Prelude.{◌≡◌, ◌≤◌};
ghost use Rattle.monk_commands.specs.LogFound.{finding_status, never_again};

use monk_judge::Report;

/// What is found for a log.
#[derive(Clone, Copy)]
pub(crate) struct Finding {
    /// What the log shows of its program.
    pub(crate) report: Report,
    /// How many seats the log has.
    pub(crate) seats: u8,
    /// The seat of the line that misfits, or 0 if none does.
    pub(crate) wrong_seat: u8,
    /// Whether its program has ended by itself.
    pub(crate) has_ended: bool,
}

/// How many threads must be overtaken before it is said that none waits again. A `while` waits again
/// now and then if a rival took what its thread was woken for, and an `if` never does. With fewer it
/// would be said about right programs.
const ENOUGH_OVERTAKEN: u64 = 24;

impl Finding {
    /// Returns the exit status: 1 if the log misfits, if a signal is missed, or if the program is busy at its end. A
    /// program that ends by itself isn't stuck, so its end is no fault.
    pub(crate) fn status(&self) -> u8
        ensures status { result ≡ finding_status self.now }
        ensures few { result ≤ 1 }
    {
        let report = &self.report;
        if report.misfit.is_some()
            || report.missed.is_some()
            || (report.holder.is_some() && !self.has_ended)
        {
            1
        } else {
            0
        }
    }

    /// Whether enough threads were overtaken on their way back, and none of them waited again.
    pub(crate) fn never_waits_again(&self) -> bool
        ensures { result ≡ never_again self.now.report.tally.overtaken self.now.report.tally.again }
    {
        let tally = &self.report.tally;
        tally.again == 0 && tally.overtaken >= ENOUGH_OVERTAKEN
    }

    /// Returns the line since which the lock is held at the end, if it is, by its index after the header.
    pub(crate) fn held_since(&self) -> Option<usize> {
        self.report.holder.map(|holder| holder.since)
    }

    /// Returns the line of the last signal that crossed a thread, if one did, by its index after the header.
    pub(crate) fn crossed_at(&self) -> Option<usize> {
        self.report
            .crossed
            .map(|crossed| crossed.line.saturating_sub(1))
    }

    /// Returns the word for how the run of the lines that fit ends.
    pub(crate) fn end_name(&self) -> &'static str {
        let report = &self.report;
        if report.holder.is_some() {
            "busy"
        } else if report.woken > 0 {
            "owed"
        } else if report.asleep == 0 {
            "free"
        } else if report.asleep == self.seats {
            "dead"
        } else {
            "open"
        }
    }
}
