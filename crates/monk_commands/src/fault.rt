ghost use Rattle.std.specs.Prelude.{◌≡◌, ◌↔◌};
ghost use Rattle.monk_commands.specs.declared.fault.StreamFault.TheVariants.{Memory};

use std::alloc::AllocError;
use thiserror::Error;

/// Why a stream gave no answer. What it had written before is not specified.
#[derive(Clone, Copy, Debug, PartialEq, Eq, Error)]
pub enum StreamFault {
    /// A request for memory was refused: number 1.
    #[error("memory")]
    Memory,
    /// The reader or the writer failed, or the input was longer than a stream reads. In a run,
    /// also: a thread was not started. Number 2.
    #[error("file")]
    File,
}

impl StreamFault {
    /// Returns the fault's number: 1 for `Memory`, 2 for `File`.
    pub fn number(self) -> u8
        ensures memory { (result ≡ 1) ↔ (self ≡ StreamFault.Memory) }
        ensures file { (result ≡ 2) ↔ (self ≡ StreamFault.File) }
    {
        match self {
            StreamFault::Memory => 1,
            StreamFault::File => 2,
        }
    }
}

impl From<AllocError> for StreamFault {
    ghost from_gives = { λ _ e. e ≡ Memory };

    fn from(_e: AllocError) -> StreamFault {
        StreamFault::Memory
    }
}
