ghost use Rattle.std.specs.Prelude.{◌≡◌, ◌+◌, ◌≤◌, length};
ghost use Rattle.monk_hall.specs.{Calls.HasArrived, Tells.SeesTruly};

use crate::hall::Hall;
use crate::parked::Parked;
use crate::places::place_after_arrive;
use crate::record::View;
use crate::rule::TableSeat;
use crate::seat_numbers::SeatNumbers;
use crate::steps;
use atomic_table::Badge;
use monk_kinds::Kind;
use monk_object::Guarded;
use std::marker::{Model, PhantomData};

/// The token of a seat that is outside the monitor. `gap` is 0, and only fills a gap (`SeatNumbers`).
#[derive(Drop)]
pub struct Pass<K: Kind, T: Guarded> {
    pub(crate) badge: Badge<View>,
    pub(crate) of: PhantomData<(K, T)>,
    pub(crate) numbers: SeatNumbers,
    pub(crate) left: u32,
    pub(crate) gap: u32,
}

impl<K: Kind, T: Guarded> Model for Pass<K, T> {
    ghost use Rattle.std.specs.Prelude.{◌≡◌, ◌∷◌, []};
    ghost use Rattle.monk_world.specs.declared.place.Place.TheVariants.{Idle};
    ghost use Rattle.monk_hall.specs.Records.{the};
    ghost use Rattle.monk_hall.specs.Tokens.{Token, IsResting, top};

    ghost Value = { Token };

    ghost view = { λ p. record { hall = p.badge.table_id; me = the (top p.badge.views) } };

    ghost invariant = { λ p. (p.badge.views ≡ top p.badge.views ∷ [])
        × IsResting K.rules T.meaning p.badge.table_id (top p.badge.views, []) p.numbers p.left
        × ((the (top p.badge.views)).place ≡ Idle) };
}

impl<K: Kind, T: Guarded> Pass<K, T> {
    /// Returns the number of its seat.
    pub fn seat(&self) -> u8
        ensures { result ≡ self.now.me.seat }
    {
        self.numbers.seat
    }

    /// Returns how many events its seat has left of its budget. What the seat has seen is legal, and its own events
    /// in that are those that it knows.
    pub fn left(&self) -> u32
        ensures left { result + length self.now.me.mine ≡ self.now.me.setting.budget }
        ensures told { SeesTruly K.rules T.meaning self.now.me }
    {
        self.left
    }

    /// Returns how many events its seat has made.
    pub(crate) fn made(&self) -> u32
        ensures made { result ≡ length self.now.me.mine }
        ensures told { SeesTruly K.rules T.meaning self.now.me }
    {
        self.numbers.budget - self.left
    }

    /// Comes to the monitor: draws a ticket, in one step. The enter is recorded when the seat becomes active.
    #[inline(always)]
    pub fn arrive(self, hall: &Hall<K, T>) -> Parked<K, T>
        requires hall { self.hall ≡ hall.now.id }
        requires left { length self.me.mine + 2 ≤ self.me.setting.budget }
        ensures { HasArrived K.rules T.meaning self result }
    {
        let Pass {
            badge,
            of: _,
            numbers,
            left,
            gap: _,
        } = self;
        let mut seat: TableSeat<K, T> = badge.into_seat();
        let found = steps::arrive(&hall.words, &mut seat);
        Parked {
            seat,
            numbers,
            left,
            place: place_after_arrive(found),
        }
    }
}
