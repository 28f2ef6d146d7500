ghost use Rattle.std.specs.Prelude.{◌≡◌};

/// The first and the last seat of a queue, and its length. If the queue is empty, neither end means anything.
#[derive(Clone, Copy)]
pub struct Chain {
    pub first: u8,
    pub last: u8,
    pub length: u8,
}

impl Chain {
    /// The empty queue.
    pub const EMPTY: Chain = Chain {
        first: 0,
        last: 0,
        length: 0,
    };

    /// Returns the queue of one seat.
    pub fn of(seat: u8) -> Chain
        ensures { result ≡ record { first = seat; last = seat; length = 1 } }
    {
        Chain {
            first: seat,
            last: seat,
            length: 1,
        }
    }
}
