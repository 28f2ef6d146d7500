//! A replay event by event, for events that aren't all known beforehand.

ghost use Rattle.std.specs.Prelude.{◌≡◌, ℕ, List, [], None, IfOk, OnOk};
ghost use Rattle.monk_kinds.specs.declared.mode.Rules.{Rules};
ghost use Rattle.monk_object.specs.Object.{Object};
ghost use Rattle.monk_history.specs.Meaning.{Monitor.monitor, Step.after, Step.opening_situation};
ghost use Rattle.monk_history.specs.Meaning.Reasons.{reason_before, reason_in};
ghost use Rattle.monk_audit.specs.{Reasons.number_or_0, Replay.IsReplayOf, Replay.replay_situation, Replay.seats_in};

use crate::reason::Reason;
use crate::replay::Replay;
use monk_history::Event;
use monk_kinds::Rules;
use monk_object::Guarded;
use std::alloc::{AllocError, Global};

impl Replay {
    /// Returns the state of a monitor before any event.
    ///
    /// # Errors
    ///
    /// `AllocError` if a request for memory was refused.
    pub fn opening(alloc: Global, seats: u8, conds: u8) -> Result<Replay, AllocError>
        ensures stands { IfOk result
            (λ r. (rules : Rules) (o : Object) (state : List ℕ)
            → replay_situation r state ≡ opening_situation (monitor rules seats conds o state)) }
        ensures sound { IfOk result (λ r. (predicates : ℕ) → IsReplayOf seats conds predicates r) }
    {
        Replay::new(alloc, seats, conds)
    }

    /// Returns the first of the first four reasons against an event, if there is one. These four
    /// don't look at what it chooses or at the object's reply.
    #[inline(always)]
    pub fn call_reason<T: Guarded>(
        &self,
        rules: Rules,
        object: &T,
        conds: u8,
        event: Event,
    ) -> Option<Reason>
        requires { IsReplayOf (seats_in self.now) conds T.PREDICATES self.now }
        ensures { number_or_0 result ≡ reason_before 0 (monitor rules (seats_in self.now) conds T.meaning [])
            (replay_situation self.now (T.state object.now)) event }
    {
        self.early_reason(rules, object, conds, event)
    }

    /// Judges an event, and carries it out if there is no reason against it. Returns the first
    /// reason, if there is one; then the replay is of no further use. The replay's own queues may
    /// grow by it; `_alloc` says that they may.
    ///
    /// # Errors
    ///
    /// `AllocError` if a request for memory was refused.
    pub fn carry_out<T: Guarded>(
        &mut self,
        _alloc: Global,
        rules: Rules,
        object: &mut T,
        conds: u8,
        event: Event,
    ) -> Result<Option<Reason>, AllocError>
        requires { IsReplayOf (seats_in self.old) conds T.PREDICATES self.old }
        ensures reason { IfOk result
            (λ r. number_or_0 r ≡ reason_in (monitor rules (seats_in self.old) conds T.meaning [])
            (replay_situation self.old (T.state object.old)) event) }
        ensures after { IfOk result
            (λ r. r ≡ None → replay_situation self.new (T.state object.new) ≡ after T.meaning
            (replay_situation self.old (T.state object.old)) event) }
        ensures sound { OnOk result (IsReplayOf (seats_in self.old) conds T.PREDICATES self.new) }
    {
        self.judge::<T, Event>(rules, object, conds, event)
    }
}
