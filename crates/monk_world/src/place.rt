use crate::home::Home;
use crate::source::Source;
use monk_history::Next;
use std::fmt;

/// Where a seat is. From `Due` to `Passing` it has the right to be active.
#[derive(Clone, Copy, Debug, PartialEq, Eq)]
pub enum Place {
    /// Outside the monitor.
    Idle,
    /// Outside, waiting for entry with this ticket.
    Ticket(u32),
    /// It has the right, and not yet the floor.
    Due(Source),
    /// It has the floor: it is the one active seat.
    Active(Source),
    /// It took the floor back with this choice, and has not yet handed the right on.
    Back(Next, Home),
    /// It took itself off the ticket word, and has not yet granted this ticket, which is next.
    Passing(u32, Home),
    /// Inside, parked until it is called.
    Inner,
}

impl Place {
    ghost use Rattle.std.specs.Prelude.{◌≡◌};
    ghost use Rattle.monk_world.specs.Places.{place_of};

    /// Returns where a seat with this home is after it has handed the right on.
    #[inline(always)]
    pub fn of_home(home: Home) -> Place
        ensures { result ≡ place_of home }
    {
        match home {
            Home::Idle => Place::Idle,
            Home::Inner => Place::Inner,
        }
    }
}

/// Written as `idle`, `ticket 3`, `due`, `active`, `back entry`, `passing 3` or `inner`.
impl fmt::Display for Place {
    ghost use Rattle.std.specs.Prelude.{Some};
    ghost use Rattle.std.specs.List.{join_with_byte};
    ghost use Rattle.monk_world.specs.Shown.{place_words};

    ghost output = { λ p. Some (join_with_byte 32 (place_words p)) };

    fn fmt<W: fmt::Write>(&self, f: &mut fmt::Formatter<W>) -> fmt::Result {
        match *self {
            Place::Idle => write!(f, "idle"),
            Place::Ticket(ticket) => write!(f, "ticket {ticket}"),
            Place::Due(_) => write!(f, "due"),
            Place::Active(_) => write!(f, "active"),
            Place::Back(next, _) => write!(f, "back {next}"),
            Place::Passing(ticket, _) => write!(f, "passing {ticket}"),
            Place::Inner => write!(f, "inner"),
        }
    }
}
