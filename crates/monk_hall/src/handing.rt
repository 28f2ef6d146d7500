//! How a seat takes the floor home and hands the right on.
ghost use Rattle.std.specs.Prelude.{◌≡◌, ◌<◌, Option, Some, None, [], ◌∷◌};
ghost use Rattle.monk_history.specs.{Meaning.Events.is_stay, declared.event.Next.Next};
ghost use Rattle.monk_world.specs.declared.place.Place.TheVariants as at;
ghost use Rattle.monk_world.specs.declared.home.Home.{Home};
ghost use Rattle.monk_hall.specs.{Granting.granted_last, Records.IsOne, Records.the, Tells.IsOfTable, Tells.IsSameSeat};
ghost use Rattle.monk_hall.specs.Handing.{seat_called_by, HasRecordedRelease, HasHandedOn, HasGone};
ghost use Rattle.monk_hall.specs.Changes.{record_after_floor_in, home_at};

use crate::boxed_floor::BoxedFloor;
use crate::hall::Hall;
use crate::places::{tickets, unpassed};
use crate::rule::TableSeat;
use crate::steps::{self, Granted, Words, seat_grant, ticket_grant};
use monk_history::Next;
use monk_kinds::Kind;
use monk_object::Guarded;

/// Returns the seat that a choice names.
#[inline(always)]
fn seat_called_by(choice: Next) -> Option<u8>
    ensures { result ≡ seat_called_by choice }
{
    match choice {
        Next::Stay | Next::Entry => None,
        Next::Waiter(called) | Next::Signaller(called) | Next::Until(called) => Some(called),
    }
}

/// Whether the choice is that the seat stays active.
pub(crate) fn is_stay(choice: Next) -> bool
    ensures { result ≡ is_stay (Some choice) }
{
    matches!(choice, Next::Stay)
}

/// After a choice of entry, takes the seat off the ticket word, and grants the next ticket if there is one.
#[inline(always)]
fn let_in<K: Kind, T: Guarded>(
    words: &Words<K, T>,
    seat: &mut TableSeat<K, T>,
    seats: u8,
) -> Option<Granted<K, T>>
    requires table { IsOfTable seat.old words.now.table.shared.table_id words.now.table.shared.key.seats }
    requires seats { (seats ≡ words.now.table.shared.key.seats) × (0 < seats) }
    requires back { IsOne seat.old.me.0
        × ((the seat.old.me.0).place ≡ at.Back Next.Entry (home_at (the seat.old.me.0).place)) }
    ensures table { IsSameSeat seat.old seat.new }
    ensures step { HasHandedOn None (the seat.old.me.0) (the seat.new.me.0) }
    ensures view { seat.new.me ≡ (the seat.new.me.0 ∷ [], seat.old.me.1) }
    ensures granted { result ≡ granted_last words.now.table.shared.table_id seats (the seat.new.me.0).did }
{
    let found = steps::drop_ticket(words, seat);
    let waiting = unpassed(found);
    if waiting == 1 {
        return None;
    }
    Some(ticket_grant(words, seat, seats, tickets(found) - waiting + 1))
}

/// Takes the floor home with the release that it has recorded, and hands the right on to whom the release chose.
/// Returns what it granted, or `None` if nobody waits.
#[inline(always)]
pub(crate) fn go_home<K: Kind, T: Guarded>(
    hall: &Hall<K, T>,
    seat: &mut TableSeat<K, T>,
    floor: BoxedFloor<K, T>,
    choice: Next,
) -> Option<Granted<K, T>>
    requires table { seat.old.table_id ≡ hall.now.id }
    requires out { seat.old.me.1 ≡ (0, None) ∷ [] }
    requires released { (to : Home)
        × HasRecordedRelease K.rules T.meaning seat.old.table_id seat.old.me choice to floor }
    ensures table { seat.new.table_id ≡ seat.old.table_id }
    ensures gone { HasGone (the seat.old.me.0) floor.history choice
        (home_at (record_after_floor_in (the seat.old.me.0) floor.history).place) (the seat.new.me.0) }
    ensures view { seat.new.me ≡ (the seat.new.me.0 ∷ [], []) }
    ensures granted { result ≡ granted_last hall.now.id hall.now.setting.seats (the seat.new.me.0).did }
{
    let words = &hall.words;
    match seat_called_by(choice) {
        Some(called) => {
            let calls = floor.granted(called);
            steps::floor_in(words, seat, floor);
            Some(seat_grant(words, seat, called, calls))
        }
        None => {
            steps::floor_in(words, seat, floor);
            let_in(words, seat, hall.seats)
        }
    }
}
