ghost use Rattle.std.specs.Prelude.{◌≡◌};
ghost use Rattle.monk_samples.specs.Samples.{size_in};

use crate::manner::Manner;
use crate::sample::Sample;

/// What the seats of a run do.
#[derive(Clone, Copy)]
pub(crate) struct Scenario {
    pub(crate) sample: Sample,
    /// How the seats of a buffer visit it.
    pub(crate) manner: Manner,
}

impl Scenario {
    /// Returns the size of its object.
    pub(crate) fn size(self) -> u8
        ensures { result ≡ size_in self.manner }
    {
        match self.manner {
            Manner::Patient => 4,
            // With one place the seats wait most often for each other.
            Manner::Hasty => 1,
        }
    }
}
