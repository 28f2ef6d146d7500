//! Why a call is refused.
ghost use Rattle.std.specs.Prelude.{◌≡◌};
ghost use Rattle.monk_c.specs.Answers.{refusal_number};

/// Why a call is refused. Nothing has changed then.
#[derive(Clone, Copy)]
pub enum Refusal {
    /// The seat is where it has no such call.
    NotNow,
    /// The seat has too few events left of its budget.
    Spent,
    /// The kind has no such call.
    NotOfKind,
    /// A number is out of its range.
    Range,
    /// Memory was refused.
    Memory,
    /// The handle has no seat.
    Closed,
}

impl Refusal {
    /// Returns its number for C, below 0.
    pub fn number(self) -> i32
        ensures { result ≡ refusal_number self }
    {
        match self {
            Refusal::NotNow => -1,
            Refusal::Spent => -2,
            Refusal::NotOfKind => -3,
            Refusal::Range => -4,
            Refusal::Memory => -5,
            Refusal::Closed => -10,
        }
    }
}
