//! What others see of a replay: the state of a monitor after legal events.

ghost use Rattle.std.specs.Prelude.{◌≡◌, ℕ, List, [], IfOk, slice_get};
ghost use Rattle.monk_audit.specs.Replay.{replay_situation};

use crate::replay::Replay;
use monk_history::Turn;
use std::alloc::{AllocError, Global};

impl Replay {
    /// Returns whose turn it is.
    pub fn turn(&self) -> Turn
        ensures { (state : List ℕ) → result ≡ (replay_situation self.now state).turn }
    {
        self.turn
    }

    /// Whether the seat is inside. A seat whose number is too great is not.
    pub fn is_inside(&self, seat: u8) -> bool
        ensures { (state : List ℕ) → result ≡ (replay_situation self.now state).inside seat }
    {
        match self.inside.get(seat as usize) {
            Some(inside) => *inside,
            None => false,
        }
    }

    /// Returns the seats that wait on the condition, in order; none if there is no such condition.
    ///
    /// # Errors
    ///
    /// `AllocError` if a request for memory was refused.
    #[tactic(auto, using(crate::proofs::QueueLaws::queue_past))]
    pub fn condition(&self, alloc: Global, cond: u8) -> Result<Vec<u8>, AllocError>
        ensures { IfOk result (λ v. (state : List ℕ) → v.items ≡ (replay_situation self.now state).condition cond) }
    {
        if cond as usize >= self.conditions.len() {
            return Ok(Vec::new(alloc));
        }
        self.conditions[cond as usize].to_vec(alloc)
    }

    /// Returns the waiter queue, in order.
    ///
    /// # Errors
    ///
    /// `AllocError` if a request for memory was refused.
    pub fn waiters(&self, alloc: Global) -> Result<Vec<u8>, AllocError>
        ensures { IfOk result (λ v. (state : List ℕ) → v.items ≡ (replay_situation self.now state).waiters) }
    {
        self.waiters.to_vec(alloc)
    }

    /// Returns the first seat of the waiter queue.
    pub fn first_waiter(&self) -> Option<u8>
        ensures { result ≡ slice_get (replay_situation self.now []).waiters 0 }
    {
        self.waiters.first().copied()
    }

    /// Returns the first seat of the signaller queue.
    pub fn first_signaller(&self) -> Option<u8>
        ensures { result ≡ slice_get (replay_situation self.now []).signallers 0 }
    {
        self.signallers.first().copied()
    }

    /// Returns the first seat that waits on the condition; none if there is no such condition.
    #[tactic(auto, using(crate::proofs::QueueLaws::queue_past))]
    pub fn first_at(&self, cond: u8) -> Option<u8>
        ensures { result ≡ slice_get ((replay_situation self.now []).condition cond) 0 }
    {
        if cond as usize >= self.conditions.len() {
            return None;
        }
        self.conditions[cond as usize].first().copied()
    }

    /// Returns the signaller queue, in order.
    ///
    /// # Errors
    ///
    /// `AllocError` if a request for memory was refused.
    pub fn signallers(&self, alloc: Global) -> Result<Vec<u8>, AllocError>
        ensures { IfOk result (λ v. (state : List ℕ) → v.items ≡ (replay_situation self.now state).signallers) }
    {
        self.signallers.to_vec(alloc)
    }

    /// Returns the seats that wait until a predicate holds, each with its predicate, in order of the waits.
    ///
    /// # Errors
    ///
    /// `AllocError` if a request for memory was refused.
    pub fn untils(&self, alloc: Global) -> Result<Vec<(u8, u8)>, AllocError>
        ensures { IfOk result (λ v. (state : List ℕ) → v.items ≡ (replay_situation self.now state).untils) }
    {
        self.untils.to_vec(alloc)
    }

    /// Whether there was an event.
    pub fn begun(&self) -> bool
        ensures { (state : List ℕ) → result ≡ (replay_situation self.now state).begun }
    {
        self.begun
    }
}
