ghost use Rattle.std.specs.Prelude.{◌≡◌, ◌≢◌, ◌+◌, Option, Some, None, IfOk, IfErr, [], ◌∷◌, ◌++◌, length};
ghost use Rattle.monk_world.specs.Places.{stage, due_stage};
ghost use Rattle.monk_world.specs.declared.place.Place.TheVariants as at;
ghost use Rattle.monk_hall.specs.Calls.{ComesAfter, HasLooked, HasEntered, StillWaits, held_ticket};
ghost use Rattle.monk_hall.specs.declared.deed.Deed.TheVariants as deed;

use crate::active::Active;
use crate::hall::Hall;
use crate::places::{
    count_after_seat_look, is_called, place_after_seat_look, place_after_ticket_look,
};
use crate::rule::TableSeat;
use crate::seat_numbers::SeatNumbers;
use crate::steps;
use monk_kinds::Kind;
use monk_object::Guarded;
use monk_world::{Place, Source, record_entry};
use std::marker::Model;

/// The token of a seat that waits to become active, outside with a ticket or inside on a queue, or that may become
/// active now. It can't be dropped: it must be polled, resumed or given up.
pub struct Parked<K: Kind, T: Guarded> {
    pub(crate) seat: TableSeat<K, T>,
    pub(crate) numbers: SeatNumbers,
    pub(crate) left: u32,
    pub(crate) place: Place,
}

impl<K: Kind, T: Guarded> Model for Parked<K, T> {
    ghost use Rattle.std.specs.Prelude.{◌≡◌, ◌≤◌};
    ghost use Rattle.monk_hall.specs.Records.{the};
    ghost use Rattle.monk_hall.specs.Tokens.{Token, IsResting, IsWaiting};

    ghost Value = { Token };

    ghost view = { λ p. record { hall = p.seat.table_id; me = the p.seat.me.0 } };

    ghost invariant = { λ p. IsResting K.rules T.meaning p.seat.table_id p.seat.me p.numbers p.left
        × (2 ≤ p.left) × (p.place ≡ (the p.seat.me.0).place) × IsWaiting p.place };
}

impl<K: Kind, T: Guarded> Parked<K, T> {
    /// Returns the number of its seat.
    pub fn seat(&self) -> u8
        ensures { result ≡ self.now.me.seat }
    {
        self.numbers.seat
    }

    /// Returns how many events its seat has left of its budget.
    pub fn left(&self) -> u32
        ensures { result + length self.now.me.mine ≡ self.now.me.setting.budget }
    {
        self.left
    }

    /// Returns the number of the ticket with which it waits for entry, or with which it found the monitor free.
    pub fn ticket(&self) -> Option<u32>
        ensures { result ≡ held_ticket self.now.me.place }
    {
        match self.place {
            Place::Ticket(ticket) => Some(ticket),
            Place::Due(Source::Free(ticket)) => Some(ticket),
            Place::Due(Source::Granted(ticket)) => Some(ticket),
            _ => None,
        }
    }

    /// Becomes active if the right was handed over. It takes at most two steps: a look where it waits, and one for
    /// the floor. Otherwise it returns itself.
    #[inline(always)]
    pub fn poll(self, hall: &Hall<K, T>) -> Result<Active<K, T>, Parked<K, T>>
        requires { self.hall ≡ hall.now.id }
        ensures active { IfOk result (λ a. HasEntered K.rules T.meaning self a × ComesAfter 0 self.me a.me) }
        ensures parked { IfErr result (λ p. StillWaits K.rules T.meaning self p × (stage self.me.place ≢ due_stage)) }
    {
        let looked = self.look(hall);
        match looked.place {
            Place::Due(source) => Ok(looked.come_in(hall, source)),
            _ => Err(looked),
        }
    }

    /// Looks where it waits. A seat that is due needs no look.
    #[inline(always)]
    fn look(self, hall: &Hall<K, T>) -> Parked<K, T>
        requires { self.hall ≡ hall.now.id }
        ensures { HasLooked K.rules T.meaning self result }
    {
        match self.place {
            Place::Ticket(ticket) => self.ticket_look(hall, ticket),
            Place::Inner => self.seat_look(hall),
            _ => self,
        }
    }

    /// Looks whether its ticket was granted.
    #[inline(always)]
    fn ticket_look(self, hall: &Hall<K, T>, ticket: u32) -> Parked<K, T>
        requires hall { self.hall ≡ hall.now.id }
        requires waits { self.me.place ≡ at.Ticket ticket }
        ensures { HasLooked K.rules T.meaning self result }
    {
        let Parked {
            mut seat,
            numbers,
            left,
            place: _,
        } = self;
        let found = steps::ticket_look(&hall.words, &mut seat, hall.seats, ticket);
        Parked {
            seat,
            numbers,
            left,
            place: place_after_ticket_look(ticket, found),
        }
    }

    /// Looks whether it was called.
    #[inline(always)]
    fn seat_look(self, hall: &Hall<K, T>) -> Parked<K, T>
        requires hall { self.hall ≡ hall.now.id }
        requires parked { self.me.place ≡ at.Inner }
        ensures { HasLooked K.rules T.meaning self result }
    {
        let Parked {
            mut seat,
            numbers,
            left,
            place: _,
        } = self;
        let found = steps::seat_look(&hall.words, &mut seat, numbers.seat);
        Parked {
            seat,
            numbers: SeatNumbers {
                seat: numbers.seat,
                calls: count_after_seat_look(numbers.calls, found),
                budget: numbers.budget,
                gap_byte: numbers.gap_byte,
                gap_pair: numbers.gap_pair,
            },
            left,
            place: place_after_seat_look(is_called(numbers.calls, found)),
        }
    }

    /// Takes the floor out for the seat, which is due, and records its enter or resume.
    #[inline(always)]
    fn come_in(self, hall: &Hall<K, T>, source: Source) -> Active<K, T>
        requires hall { self.hall ≡ hall.now.id }
        requires due { self.me.place ≡ at.Due source }
        ensures entered { HasEntered K.rules T.meaning self result }
        ensures did { result.me.did ≡ self.me.did ++ deed.FloorOut ∷ [] }
    {
        let Parked {
            mut seat,
            numbers,
            left: _,
            place: _,
        } = self;
        let mut floor = steps::floor_out(&hall.words, &mut seat);
        record_entry(&mut floor, numbers.seat, source);
        Active {
            seat,
            numbers,
            floor,
        }
    }

    /// Abandons the seat. It keeps its place in its queue. When its turn comes, it holds the monitor for ever.
    pub fn give_up(self) {
        let Parked {
            seat: _,
            numbers: _,
            left: _,
            place: _,
        } = self;
    }
}
