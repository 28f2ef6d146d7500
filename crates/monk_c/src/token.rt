//! The token of a seat, wherever the seat is.
ghost use Rattle.std.specs.Prelude.{◌≡◌, ◌+◌, length};
ghost use Rattle.monk_c.specs.{Answers.place_number, Refusal.is_from, Stands.me_of, Tokens.at_of};

use crate::call::Call;
use monk_hall::{Active, Parked, Pass};
use monk_kinds::Kind;
use monk_object::Flags;

/// The token of a seat, by where the seat is.
pub enum SeatToken<K: Kind> {
    /// It is outside the monitor.
    Outside(Pass<K, Flags>),
    /// It waits, or may come in now.
    Waiting(Parked<K, Flags>),
    /// It has the monitor.
    Inside(Active<K, Flags>),
}

impl<K: Kind> SeatToken<K> {
    /// Whether a seat that is there has the call.
    #[inline(always)]
    pub fn is_from(&self, call: Call) -> bool
        ensures { result ≡ is_from (at_of self.now) call }
    {
        match self {
            SeatToken::Outside(_) => matches!(call, Call::Arrive),
            SeatToken::Waiting(_) => matches!(call, Call::Poll),
            SeatToken::Inside(_) => !matches!(call, Call::Arrive | Call::Poll),
        }
    }

    /// Returns how many events its seat has left.
    #[inline(always)]
    pub fn left(&self) -> u32
        ensures { result + length (me_of (at_of self.now)).mine ≡ (me_of (at_of self.now)).setting.budget }
    {
        match self {
            SeatToken::Outside(pass) => pass.left(),
            SeatToken::Waiting(parked) => parked.left(),
            SeatToken::Inside(active) => active.left(),
        }
    }

    /// Returns the number for C of where the seat is.
    #[inline(always)]
    pub fn place(&self) -> i32
        ensures { result ≡ place_number (at_of self.now) }
    {
        match self {
            SeatToken::Outside(_) => 1,
            SeatToken::Waiting(_) => 2,
            SeatToken::Inside(_) => 3,
        }
    }
}
