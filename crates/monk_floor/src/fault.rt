ghost use Rattle.std.specs.Prelude.{◌≡◌, ◌↔◌};
ghost use Rattle.monk_floor.specs.declared.fault.MakeFault.TheVariants.{Memory};

use std::alloc::AllocError;
use thiserror::Error;

/// Why a floor was not made, in the order of the tests.
#[derive(Clone, Copy, Debug, PartialEq, Eq, Error)]
pub enum MakeFault {
    /// There must be 1 to 32 seats: number 1.
    #[error("seats")]
    Seats,
    /// There may be at most 8 condition variables: number 2.
    #[error("conds")]
    Conds,
    /// The budget must be 2 to 2^20 events a seat: number 3.
    #[error("budget")]
    Budget,
    /// Memory for the queues and the history was refused: number 4.
    #[error("memory")]
    Memory,
}

impl MakeFault {
    /// Returns the fault's number: 1 for `Seats`, 2 for `Conds`, 3 for `Budget`, 4 for `Memory`.
    pub fn number(self) -> u8
        ensures seats { (result ≡ 1) ↔ (self ≡ MakeFault.Seats) }
        ensures conds { (result ≡ 2) ↔ (self ≡ MakeFault.Conds) }
        ensures budget { (result ≡ 3) ↔ (self ≡ MakeFault.Budget) }
        ensures memory { (result ≡ 4) ↔ (self ≡ MakeFault.Memory) }
    {
        match self {
            MakeFault::Seats => 1,
            MakeFault::Conds => 2,
            MakeFault::Budget => 3,
            MakeFault::Memory => 4,
        }
    }
}

impl From<AllocError> for MakeFault {
    ghost from_gives = { λ _ e. e ≡ Memory };

    fn from(_e: AllocError) -> MakeFault {
        MakeFault::Memory
    }
}
