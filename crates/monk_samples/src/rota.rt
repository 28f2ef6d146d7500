ghost use Rattle.std.specs.Prelude.{◌≡◌, ◌≤◌, ◌*◌, ◌/◌};
ghost use Rattle.monk_samples.specs.Rounds.{rounds_of};

use crate::sample::Sample;
use crate::scenario::Scenario;

/// Which seats of a run work, and how long.
#[derive(Clone, Copy)]
pub(crate) struct Rota {
    pub(crate) scenario: Scenario,
    /// How many seats there are, 2 to 16.
    pub(crate) seats: u8,
    /// How many rounds each has, 1 to 1000.
    pub(crate) rounds: u32,
    ghost seats_in_range: { (2 ≤ seats) × (seats ≤ 16) },
    ghost rounds_in_range: { (1 ≤ rounds) × (rounds ≤ 1000) },
}

impl Rota {
    /// Returns how many rounds a seat has. In a shop the first seat is the barber, who has one for each round of
    /// every other seat. In the other samples an odd last seat stays idle.
    pub(crate) fn rounds_of(&self, seat: u8) -> u32
        ensures { result ≡ rounds_of self.now.scenario.sample self.now.seats self.now.rounds seat }
    {
        match self.scenario.sample {
            Sample::Shop if seat == 0 => u32::from(self.seats - 1) * self.rounds,
            Sample::Shop => self.rounds,
            _ if seat < self.working_seats() => self.rounds,
            _ => 0,
        }
    }

    /// Returns how many seats of a buffer or of a book work: two halves.
    fn working_seats(&self) -> u8
        ensures { result ≡ self.now.seats / 2 * 2 }
    {
        self.seats / 2 * 2
    }
}
