ghost use Rattle.std.specs.Prelude.{◌<◌};

use monk_kinds::Pick;

/// A generator of numbers with a fixed seed: a linear congruence.
#[derive(Drop)]
pub struct Chance {
    state: u32,
}

impl Chance {
    pub fn new() -> Chance {
        Chance { state: 1995 }
    }

    /// Returns a number below the bound.
    pub fn below(&mut self, bound: u8) -> u8
        requires { 0 < bound }
        ensures { result < bound }
    {
        self.state = self
            .state
            .wrapping_mul(1_664_525)
            .wrapping_add(1_013_904_223);
        ((self.state >> 16) % u32::from(bound)) as u8
    }

    /// Returns a wish.
    pub fn pick(&mut self) -> Pick {
        match self.below(3) {
            0 => Pick::Entry,
            1 => Pick::Waiter,
            _ => Pick::Signaller,
        }
    }
}
