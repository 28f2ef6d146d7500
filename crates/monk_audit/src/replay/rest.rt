//! What an event does to a replay apart from the queues of conditions, waiters and signallers; and who is ready.

ghost use Rattle.std.specs.Prelude.{◌≡◌, ◌<◌, ◌++◌, ◌&&◌, ◌||◌, ℕ, []};
ghost use Rattle.std.specs.Prelude.{All, OnOk, filter, length, not, slice_get, slice_index_or, false, true};
ghost use Rattle.monk_history.specs.Meaning.Events.{next_of, seat_of};
ghost use Rattle.monk_history.specs.Meaning.Turn as turns;
ghost use Rattle.monk_history.specs.Meaning.Untils.{chooses, ready_of, waits_until};
ghost use Rattle.monk_audit.specs.Replay.{has, replay_situation};

use crate::inside::mark_inside;
use crate::moves::{drop_chosen, join_untils};
use crate::queues::{first_ready, is_ready};
use crate::replay::Replay;
use monk_history::{Event, Turn};
use monk_object::Guarded;
use std::alloc::AllocError;

impl Replay {
    /// Carries out what an event does apart from the queues of the conditions, of the waiters and
    /// of the signallers, part by part.
    #[inline(always)]
    pub(crate) fn go_on(&mut self, event: Event) -> Result<(), AllocError>
        requires { seat_of event < length self.old.inside.items }
        ensures conditions { self.new.conditions ≡ self.old.conditions }
        ensures waiters { self.new.waiters ≡ self.old.waiters }
        ensures signallers { self.new.signallers ≡ self.old.signallers }
        ensures untils { OnOk result
            (self.new.untils.items ≡ filter (λ w. not (chooses event w)) self.old.untils.items ++ waits_until event) }
        ensures turn { self.new.turn ≡ turns.turn_by (seat_of event) (next_of event) }
        ensures inside { (j : ℕ)
            → slice_index_or self.new.inside.items j
            false ≡ (slice_index_or self.old.inside.items j false && not (turns.is_exit_of j event))
            || turns.is_enter_of j event }
        ensures seats { length self.new.inside.items ≡ length self.old.inside.items }
        ensures begun { self.new.begun ≡ true }
    {
        self.turn = Turn::after(event);
        self.begun = true;
        mark_inside(&mut self.inside, event);
        drop_chosen(&mut self.untils, event);
        join_untils(&mut self.untils, event)
    }

    /// Returns the first ready seat: it waits until a predicate, and the predicate holds.
    pub fn first_ready<T: Guarded>(&self, object: &T) -> Option<u8>
        requires { All (λ w. w.1 < T.PREDICATES) (replay_situation self.now []).untils }
        ensures { result ≡ slice_get (ready_of T.meaning (T.state object.now) (replay_situation self.now []).untils) 0 }
    {
        first_ready(object, &self.untils)
    }

    /// Whether the seat is ready: it waits until a predicate, and the predicate holds.
    pub fn is_ready<T: Guarded>(&self, object: &T, seat: u8) -> bool
        requires { All (λ w. w.1 < T.PREDICATES) (replay_situation self.now []).untils }
        ensures { result ≡ has seat (ready_of T.meaning (T.state object.now) (replay_situation self.now []).untils) }
    {
        is_ready(object, &self.untils, seat)
    }
}
