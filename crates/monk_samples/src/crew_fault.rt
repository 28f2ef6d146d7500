ghost use Rattle.std.specs.Prelude.{◌≡◌};
ghost use Rattle.monk_samples.specs.declared.crew_fault.CrewFault.TheVariants as crew;
ghost use Rattle.monk_samples.specs.Faults.{run_fault_of};

use crate::run_fault::RunFault;
use std::alloc::{AllocError, AllocFailed};
use thiserror::Error;

/// Why the crew of a run has left no history. What the caller asked for was in range.
#[derive(Debug, Drop, Error)]
pub(crate) enum CrewFault {
    #[error("memory")]
    Memory,
    #[error("tired")]
    Tired,
    #[error("late")]
    Late,
    #[error("busy")]
    Busy,
    #[error("thread")]
    Thread,
}

impl CrewFault {
    /// Returns this fault as one of the run.
    pub(crate) fn of_run(self) -> RunFault
        ensures { result ≡ run_fault_of self }
    {
        match self {
            CrewFault::Memory => RunFault::Memory,
            CrewFault::Tired => RunFault::Tired,
            CrewFault::Late => RunFault::Late,
            CrewFault::Busy => RunFault::Busy,
            CrewFault::Thread => RunFault::Thread,
        }
    }
}

impl From<AllocError> for CrewFault {
    ghost from_gives = { λ _ fault. fault ≡ crew.Memory };

    fn from(_error: AllocError) -> CrewFault {
        CrewFault::Memory
    }
}

impl<T: Drop> From<AllocFailed<T>> for CrewFault {
    ghost from_gives = { λ _ fault. fault ≡ crew.Memory };

    fn from(_refused: AllocFailed<T>) -> CrewFault {
        CrewFault::Memory
    }
}
