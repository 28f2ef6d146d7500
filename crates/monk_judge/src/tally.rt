//! What is counted over the lines of a log.

ghost use Rattle.std.specs.Prelude.{◌≡◌, ◌+◌, ◌<◌, ◌≤◌, ◌^◌};
ghost use Rattle.monk_judge.specs.Counts.{first_after, last_after, passed_in, spurious_in, unheard_in, wakes_in};

use crate::told::Told;

/// What is counted over the lines of a log.
#[derive(Clone, Copy, Debug, PartialEq, Eq)]
pub struct Tally {
    /// How many threads signals and broadcasts woke.
    pub served: u64,
    /// How often a thread took the lock while a woken one wasn't back. It came in, or came back
    /// from a wait that ran out.
    pub passed: u64,
    /// How many threads woke though nobody sent a signal.
    pub spurious: u64,
    /// The first line that needs such a wake-up, counted from 0 after the header.
    pub first_spurious: Option<usize>,
    /// How many signals and broadcasts found nobody asleep.
    pub unheard: u64,
    /// The last line with such a signal, counted from 0 after the header.
    pub last_unheard: Option<usize>,
    /// How many woken threads came back by a `resume` after others had taken the lock.
    pub overtaken: u64,
    /// How many of these waited on the same condition again as the next thing that they did.
    pub again: u64,
    /// The `resume` of the first that didn't, counted from 0 after the header.
    pub first_not_again: Option<usize>,
}

impl Tally {
    /// Before any line.
    pub(crate) const NOTHING: Tally = Tally {
        served: 0,
        passed: 0,
        spurious: 0,
        first_spurious: None,
        unheard: 0,
        last_unheard: None,
        overtaken: 0,
        again: 0,
        first_not_again: None,
    };

    /// Counts the line with that index. `told` is what it told. A broadcast wakes 255 threads at most.
    pub(crate) fn line(&mut self, index: usize, told: Told)
        requires { self.old.served + self.old.passed + self.old.spurious + self.old.unheard + 255 < 2 ^ 64 }
        ensures served { self.new.served ≡ self.old.served + wakes_in told }
        ensures passed { self.new.passed ≡ self.old.passed + passed_in told }
        ensures spurious { self.new.spurious ≡ self.old.spurious + spurious_in told }
        ensures first { self.new.first_spurious ≡ first_after self.old.first_spurious index told }
        ensures last { self.new.last_unheard ≡ last_after self.old.last_unheard index told }
        ensures room { self.new.served + self.new.passed + self.new.spurious + self.new.unheard
            ≤ self.old.served + self.old.passed + self.old.spurious + self.old.unheard + 255 }
        ensures unheard { self.new.unheard ≡ self.old.unheard + unheard_in told }
    {
        match told {
            Told::Plain => {}
            Told::Passed => self.passed += 1,
            Told::Unheard => {
                self.unheard += 1;
                self.last_unheard = Some(index);
            }
            Told::Woke(_) => self.served += 1,
            Told::WokeAll(many) => self.served += u64::from(many),
            Told::Spurious => {
                self.spurious += 1;
                self.first_spurious = self.first_spurious.or(Some(index));
            }
        }
    }
}
