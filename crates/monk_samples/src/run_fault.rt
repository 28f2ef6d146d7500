ghost use Rattle.std.specs.Prelude.{◌≡◌, ◌↔◌};

use thiserror::Error;

/// Why a run has no outcome.
#[derive(Debug, Drop, PartialEq, Eq, Error)]
pub enum RunFault {
    /// The number of seats is not 2 to 16, or that of rounds not 1 to 1000: number 1.
    #[error("seats or rounds out of range")]
    Range,
    /// A request for memory was refused: number 2.
    #[error("memory")]
    Memory,
    /// The budget of a seat is spent: number 3.
    #[error("tired")]
    Tired,
    /// The gate sent a worker away: number 4.
    #[error("late")]
    Late,
    /// The hall could not be closed, because somebody was in it or at its entry; or the history holds something else,
    /// or a read or a write of a book was not ended: number 5.
    #[error("busy")]
    Busy,
    /// A thread could not be started: number 6.
    #[error("thread")]
    Thread,
}

impl RunFault {
    /// Returns its number: 1 for `Range`, 2 for `Memory`, 3 for `Tired`, 4 for `Late`, 5 for `Busy`, 6 for `Thread`.
    pub fn number(&self) -> u8
        ensures range { (result ≡ 1) ↔ (self.now ≡ RunFault.Range) }
        ensures memory { (result ≡ 2) ↔ (self.now ≡ RunFault.Memory) }
        ensures tired { (result ≡ 3) ↔ (self.now ≡ RunFault.Tired) }
        ensures late { (result ≡ 4) ↔ (self.now ≡ RunFault.Late) }
        ensures busy { (result ≡ 5) ↔ (self.now ≡ RunFault.Busy) }
        ensures thread { (result ≡ 6) ↔ (self.now ≡ RunFault.Thread) }
    {
        match self {
            RunFault::Range => 1,
            RunFault::Memory => 2,
            RunFault::Tired => 3,
            RunFault::Late => 4,
            RunFault::Busy => 5,
            RunFault::Thread => 6,
        }
    }
}
