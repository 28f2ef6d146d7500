//! A release on its way: what all releases share after the floor has recorded them.
ghost use Rattle.std.specs.Prelude.{◌≡◌, false, Some};
ghost use Rattle.monk_history.specs.Meaning.Events.{is_stay};
ghost use Rattle.monk_world.specs.declared.home.Home.TheVariants as home;
ghost use Rattle.monk_hall.specs.Recorded.{IsApart, IsRecorded, GoesOutside, GoesInside, GoesOnOrInside};

use crate::active::Active;
use crate::after::After;
use crate::boxed_floor::BoxedFloor;
use crate::hall::Hall;
use crate::handing::{go_home, is_stay};
use crate::parked::Parked;
use crate::pass::Pass;
use crate::rule::TableSeat;
use crate::seat_numbers::SeatNumbers;
use crate::steps::Granted;
use monk_history::Next;
use monk_kinds::Kind;
use monk_object::Guarded;
use monk_world::Place;
use std::marker::PhantomData;

/// The active seat, taken apart. Its floor has recorded a release, which has chosen who goes on. The floor must still
/// go home, unless the seat stays.
pub struct Release<K: Kind, T: Guarded> {
    pub(crate) seat: TableSeat<K, T>,
    pub(crate) numbers: SeatNumbers,
    pub(crate) floor: BoxedFloor<K, T>,
    pub(crate) choice: Next,
}

impl<K: Kind, T: Guarded> Release<K, T> {
    /// Takes the active seat apart, before its release.
    #[inline(always)]
    pub(crate) fn of(active: Active<K, T>) -> Release<K, T>
        ensures { IsApart K.rules T.meaning active result }
    {
        let Active {
            seat,
            numbers,
            floor,
        } = active;
        // The numbers go field by field, as in `Parked::seat_look`. A copy of the whole would read as one word what
        // was written as several, and would wait for these writes.
        Release {
            seat,
            numbers: SeatNumbers {
                calls: numbers.calls,
                budget: numbers.budget,
                seat: numbers.seat,
                gap_byte: numbers.gap_byte,
                gap_pair: numbers.gap_pair,
            },
            floor,
            choice: Next::Stay,
        }
    }

    /// Makes the seat leave the monitor. Returns also what it granted.
    #[inline(always)]
    pub(crate) fn go_outside(self, hall: &Hall<K, T>) -> (Pass<K, T>, Option<Granted<K, T>>)
        requires table { self.seat.table_id ≡ hall.now.id }
        requires recorded { IsRecorded K.rules T.meaning home.Idle self }
        requires away { is_stay (Some self.choice) ≡ false }
        ensures { GoesOutside K.rules T.meaning self result.0 hall.now result.1 }
    {
        let Release {
            mut seat,
            numbers,
            floor,
            choice,
        } = self;
        let left = floor.left(numbers.seat);
        let granted = go_home(hall, &mut seat, floor, choice);
        let pass = Pass {
            badge: seat.into_badge(),
            of: PhantomData,
            numbers,
            left,
            gap: 0,
        };
        (pass, granted)
    }

    /// Parks the seat inside the monitor. Returns also what it granted.
    #[inline(always)]
    pub(crate) fn go_inside(self, hall: &Hall<K, T>) -> (Parked<K, T>, Option<Granted<K, T>>)
        requires table { self.seat.table_id ≡ hall.now.id }
        requires recorded { IsRecorded K.rules T.meaning home.Inner self }
        requires away { is_stay (Some self.choice) ≡ false }
        ensures { GoesInside K.rules T.meaning self result.0 hall.now result.1 }
    {
        let Release {
            mut seat,
            numbers,
            floor,
            choice,
        } = self;
        let left = floor.left(numbers.seat);
        let granted = go_home(hall, &mut seat, floor, choice);
        let parked = Parked {
            seat,
            numbers,
            left,
            place: Place::Inner,
        };
        (parked, granted)
    }

    /// Keeps the seat active if it chose itself, and otherwise parks it inside. Returns also what it granted.
    pub(crate) fn go_on(self, hall: &Hall<K, T>) -> (After<K, T>, Option<Granted<K, T>>)
        requires table { self.seat.table_id ≡ hall.now.id }
        requires recorded { IsRecorded K.rules T.meaning home.Inner self }
        ensures { GoesOnOrInside K.rules T.meaning self result.0 hall.now result.1 }
    {
        if is_stay(self.choice) {
            let Release {
                seat,
                numbers,
                floor,
                choice: _,
            } = self;
            let active = Active {
                seat,
                numbers,
                floor,
            };
            return (After::Active(active), None);
        }
        let (parked, granted) = self.go_inside(hall);
        (After::Parked(parked), granted)
    }
}
