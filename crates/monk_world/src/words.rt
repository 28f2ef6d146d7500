ghost use Rattle.std.specs.Prelude.{◌≡◌, vec_len};

use crate::place::Place;

/// What the seats share, and where each of them is. Each call is one atomic step, for a seat at the place that the
/// step needs, or changes only what the seat itself knows.
#[derive(Drop)]
pub struct WorldWords {
    pub seats: u8,
    pub drawn: u32,
    pub unpassed: u32,
    pub ticket_places: Vec<u32>,
    pub seat_places: Vec<u32>,
    pub places: Vec<Place>,
    pub counts: Vec<u32>,
    pub known: Vec<bool>,
    ghost has_tickets: { vec_len ticket_places ≡ seats },
    ghost has_seats: { vec_len seat_places ≡ seats },
    ghost has_places: { vec_len places ≡ seats },
    ghost has_counts: { vec_len counts ≡ seats },
    ghost has_known: { vec_len known ≡ seats },
}
