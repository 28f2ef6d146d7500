ghost use Rattle.std.specs.Prelude.{◌≡◌, ◌≢◌, ℕ, ◌<◌, ◌≤◌, ◌+◌, ◌==◌, Some, [], ◌∷◌, ◌++◌, drop, take, length};
ghost use Rattle.std.specs.Prelude.{slice_get, IfSome, if◌then◌else◌};
ghost use Rattle.monk_history.specs.Meaning.{Signallers.is_empty, Standing.times};
ghost use Rattle.monk_floor.specs.{Links.places, Links.without, Links.seat_before, Queues.queue_at};

use crate::chain::Chain;
use monk_history::{MOST_CONDS, MOST_SEATS};
use std::marker::Model;

/// How many queues there may be: three and one for each condition variable.
pub const QUEUES: u8 = MOST_CONDS + 3;

/// Queues of seats, each linked from seat to seat.
///
/// A seat is in at most one of them, so one link for each seat serves all queues.
#[derive(Drop)]
pub struct Links {
    // for each seat the next one of its queue; for the last of a queue any seat
    next: [u8; MOST_SEATS as usize],
    chains: [Chain; QUEUES as usize],
}

impl Model for Links {
    ghost use Rattle.std.specs.Prelude.{ℕ, List, map};
    ghost use Rattle.monk_floor.specs.Links.{seats_of, IsLinked};

    ghost Value = { List (List ℕ) };

    ghost view = { λ l. map (seats_of l.next) l.chains };

    ghost invariant = { λ l. IsLinked l.next l.chains };
}

impl Links {
    /// Returns queues with nobody in them.
    pub fn new() -> Links
        ensures { (c : ℕ) → queue_at result c ≡ [] }
    {
        Links {
            next: [0; MOST_SEATS as usize],
            chains: [Chain::EMPTY; QUEUES as usize],
        }
    }

    /// Returns how many seats a queue has. Constant time.
    pub fn len(&self, queue: u8) -> u8
        requires { queue < QUEUES }
        ensures { result ≡ length (queue_at self.now queue) }
    {
        self.chains[queue as usize].length
    }

    /// Whether nobody is in a queue. Constant time.
    pub fn is_empty(&self, queue: u8) -> bool
        requires { queue < QUEUES }
        ensures { result ≡ is_empty (queue_at self.now queue) }
    {
        self.chains[queue as usize].length == 0
    }

    /// Returns the front of a queue. Constant time.
    pub fn front(&self, queue: u8) -> Option<u8>
        requires { queue < QUEUES }
        ensures front { result ≡ slice_get (queue_at self.now queue) 0 }
        ensures seat { IfSome result (λ s. s < MOST_SEATS) }
    {
        let chain = self.chains[queue as usize];
        if chain.length == 0 {
            None
        } else {
            Some(chain.first)
        }
    }

    /// Returns the seat after one that is in a queue. Constant time.
    pub fn after(&self, queue: u8, seat: u8) -> Option<u8>
        requires queue { queue < QUEUES }
        requires there { 1 ≤ times seat (queue_at self.now queue) }
        ensures next { (i : ℕ) → slice_get (queue_at self.now queue) i ≡ Some seat
            → result ≡ slice_get (queue_at self.now queue) (i + 1) }
        ensures seat { IfSome result (λ s. s < MOST_SEATS) }
    {
        if self.chains[queue as usize].last == seat {
            None
        } else {
            Some(self.next[seat as usize])
        }
    }

    /// Puts a seat that is in no queue at the back of one. Constant time.
    pub fn push(&mut self, queue: u8, seat: u8)
        requires queue { queue < QUEUES }
        requires seat { seat < MOST_SEATS }
        requires apart { places seat (queue_at self.old) ≡ 0 }
        ensures { (c : ℕ) → queue_at self.new c ≡ queue_at self.old c ++ (if queue == c then seat ∷ [] else []) }
    {
        let chain = self.chains[queue as usize];
        if chain.length == 0 {
            self.chains[queue as usize] = Chain::of(seat);
        } else {
            self.next[chain.last as usize] = seat;
            self.chains[queue as usize] = Chain {
                first: chain.first,
                last: seat,
                length: chain.length + 1,
            };
        }
    }

    /// Takes the front out of a queue, if there is one. Constant time.
    pub fn pop(&mut self, queue: u8) -> Option<u8>
        requires { queue < QUEUES }
        ensures front { result ≡ slice_get (queue_at self.old queue) 0 }
        ensures rest { (c : ℕ) → queue_at self.new c ≡ drop (if queue == c then 1 else 0) (queue_at self.old c) }
        ensures seat { IfSome result (λ s. s < MOST_SEATS) }
        ensures apart { IfSome result (λ s. places s (queue_at self.new) ≡ 0) }
    {
        let chain = self.chains[queue as usize];
        if chain.length == 0 {
            return None;
        }
        let front = chain.first;
        self.chains[queue as usize] = Chain {
            first: self.next[front as usize],
            last: chain.last,
            length: chain.length - 1,
        };
        Some(front)
    }

    /// Moves the front of a queue, if there is one, to the back of another. Constant time.
    pub fn pass(&mut self, from: u8, to: u8)
        requires from { from < QUEUES }
        requires to { to < QUEUES }
        ensures { (c : ℕ)
            → queue_at self.new c ≡ drop (if from == c then 1 else 0) (queue_at self.old c)
            ++ (if to == c then take 1 (queue_at self.old from) else []) }
    {
        if let Some(seat) = self.pop(from) {
            self.push(to, seat);
        }
    }

    /// Moves all seats of a queue, in order, to the back of another. Constant time.
    pub fn pass_all(&mut self, from: u8, to: u8)
        requires from { from < QUEUES }
        requires to { to < QUEUES }
        requires other { from ≢ to }
        ensures { (c : ℕ)
            → queue_at self.new c ≡ (if from == c then [] else queue_at self.old c)
            ++ (if to == c then queue_at self.old from else []) }
    {
        let passed = self.chains[from as usize];
        if passed.length == 0 {
            return;
        }
        let chain = self.chains[to as usize];
        self.chains[from as usize] = Chain::EMPTY;
        if chain.length == 0 {
            self.chains[to as usize] = passed;
            return;
        }
        self.next[chain.last as usize] = passed.first;
        self.chains[to as usize] = Chain {
            first: chain.first,
            last: passed.last,
            length: chain.length + passed.length,
        };
    }

    /// Takes a seat out of a queue, if it is in it. Costs the seats before it.
    pub fn remove(&mut self, queue: u8, seat: u8)
        requires { queue < QUEUES }
        ensures removed { queue_at self.new queue ≡ without seat (queue_at self.old queue) }
        ensures others { (c : ℕ) → queue ≢ c → queue_at self.new c ≡ queue_at self.old c }
    {
        if self.front(queue) == Some(seat) {
            self.pop(queue);
        } else if let Some(before) = self.before(queue, seat) {
            self.unlink(queue, before, seat);
        }
    }

    /// Returns the seat just before a seat of a queue. Costs the seats before it.
    fn before(&self, queue: u8, seat: u8) -> Option<u8>
        requires { queue < QUEUES }
        ensures { result ≡ seat_before seat (queue_at self.now queue) }
    {
        let chain = self.chains[queue as usize];
        let mut before = chain.first;
        for _ in 1..chain.length {
            let here = self.next[before as usize];
            if here == seat {
                return Some(before);
            }
            before = here;
        }
        None
    }

    /// Takes out the seat that comes after `before`. Constant time.
    fn unlink(&mut self, queue: u8, before: u8, seat: u8)
        requires queue { queue < QUEUES }
        requires before { seat_before seat (queue_at self.old queue) ≡ Some before }
        ensures removed { queue_at self.new queue ≡ without seat (queue_at self.old queue) }
        ensures others { (c : ℕ) → queue ≢ c → queue_at self.new c ≡ queue_at self.old c }
    {
        let chain = self.chains[queue as usize];
        self.next[before as usize] = self.next[seat as usize];
        self.chains[queue as usize] = Chain {
            first: chain.first,
            last: last_without(chain, seat, before),
            length: chain.length - 1,
        };
    }
}

/// Returns the last seat of a queue after `seat`, which comes after `before`, is taken out.
fn last_without(chain: Chain, seat: u8, before: u8) -> u8
    ensures { result ≡ (if chain.last == seat then before else chain.last) }
{
    if chain.last == seat {
        before
    } else {
        chain.last
    }
}
