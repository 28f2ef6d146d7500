ghost use Rattle.std.specs.Prelude.{◌≡◌, ℕ, Bool, true};

/// What each worker asks before each of its rounds.
pub trait Gate: Sync {
    // What an answer for a seat and a round means. A gate that leaves this out promises nothing.
    ghost answers: { Self → ℕ → ℕ → Bool → Type 0 } = { λ _ _ _ _. Unit {0} };

    /// Whether the seat may begin the round, counted from 1. If not, its worker ends late.
    fn pass(&self, seat: u8, round: u32) -> bool
        ensures { answers self.now seat round result };
}

/// A gate that is always open.
#[derive(Clone, Copy, Debug)]
pub struct OpenGate;

impl Gate for OpenGate {
    ghost answers = { λ _ _ _ answer. answer ≡ true };

    fn pass(&self, _seat: u8, _round: u32) -> bool {
        true
    }
}
