//! How a hall ends.
ghost use Rattle.std.specs.Prelude.{◌≡◌, None, true, false, IfOk, IfErr, IfSome};
ghost use Rattle.monk_hall.specs.Calls.{HasPeeked};
ghost use Rattle.monk_hall.specs.Closing.{HasSomebody, IsUnqueued, IsEnded, IsBusy};

use crate::active::Active;
use crate::busy::Busy;
use crate::closed::Closed;
use crate::hall::Hall;
use crate::rule::SharedTable;
use crate::steps;
use crate::steps::alone::Alone;
use monk_floor::Floor;
use monk_kinds::{Kind, Pick};
use monk_object::Guarded;

/// Whether a queue has any of these seats.
fn has_queued<K: Kind, T: Guarded>(floor: &Floor<K, T>, seats: u8) -> bool
    requires { seats ≡ floor.now.seats }
    ensures found { result ≡ true → HasSomebody K.rules T.meaning floor.now }
    ensures none { result ≡ false → IsUnqueued K.rules T.meaning floor.now seats }
{
    for seat in 0..seats {
        if floor.queued(seat) {
            return true;
        }
    }
    false
}

/// Ends the hall if nobody else is in it: the active seat leaves, and the caller gets the object and the whole
/// history. If a queue has somebody, or if a look at the ticket word finds somebody at the entry, the caller gets
/// both arguments back. Then nothing that a program can read has changed.
///
/// Takes no memory and at most one step. Looks at each seat.
pub fn close<K: Kind, T: Guarded>(
    hall: Hall<K, T>,
    active: Active<K, T>,
) -> Result<Closed<T>, Busy<K, T>>
    requires { active.hall ≡ hall.id }
    ensures ended { IfOk result (λ c. IsEnded K.rules T.meaning active c.history.items (T.state c.object)) }
    ensures busy { IfErr result (λ b. (b.hall ≡ hall) × IsBusy K.rules T.meaning active b.active) }
{
    if has_queued(&active.floor, hall.seats) {
        return Err(Busy { hall, active });
    }
    let mut active = active;
    match active.peek_alone(&hall) {
        None => Err(Busy { hall, active }),
        Some(alone) => Ok(active.end(alone)),
    }
}

impl<K: Kind, T: Guarded> Active<K, T> {
    /// Looks at the ticket word, in the one step by which a hall ends.
    fn peek_alone(&mut self, hall: &Hall<K, T>) -> Option<Alone<SharedTable<K, T>>>
        requires { self.old.hall ≡ hall.now.id }
        ensures peeked { HasPeeked 1 self.old self.new }
        ensures known { result ≡ None → self.new.me.known ≡ true }
        ensures hall { IfSome result (λ a. a.of.value.table_id ≡ self.new.hall) }
    {
        steps::peek_alone(&hall.words, &mut self.seat)
    }

    /// Makes the last seat leave. Only a look at this hall's ticket word that found nobody lets the floor go. Returns
    /// the object and the history.
    fn end(self, alone: Alone<SharedTable<K, T>>) -> Closed<T>
        requires alone { alone.of.value.table_id ≡ self.hall }
        requires unqueued { IsUnqueued K.rules T.meaning self.floor self.floor.seats }
        ensures { IsEnded K.rules T.meaning self result.history.items (T.state result.object) }
    {
        let Active {
            seat: _,
            numbers,
            floor,
        } = self;
        let mut floor = floor.into_inner(alone);
        floor.leave(numbers.seat, Pick::Entry, false);
        let (object, history) = floor.close();
        Closed { object, history }
    }
}
