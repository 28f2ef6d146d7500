ghost use Rattle.std.specs.Prelude.{◌≡◌, ℕ, ◌*◌, ◌<◌, ◌≤◌, None, false, not, ◌&&◌, IfOk, IfErr, nat_lt, slice_index_or};
ghost use Rattle.std.specs.Prelude.{List, [], ◌∷◌, ◌++◌, length};
ghost use Rattle.monk_history.specs.Meaning.Events as events;
ghost use Rattle.monk_history.specs.Meaning.{Conditions.condition, Legal.IsLegal, Monitor.data_of, Monitor.data_after};
ghost use Rattle.monk_history.specs.Meaning.{Reasons.IsAllowed, Standing.has_turn, Standing.is_queued, Turn.turn};
ghost use Rattle.monk_history.specs.Meaning.Counts.{left_of, granted_of, enters_of};
ghost use Rattle.monk_history.specs.Limits.{most_lines};
ghost use Rattle.monk_floor.specs.{Chosen.IsChosen, Due.IsDueTo, Due.IsDueSome, Due.due_seat, Grown.IsGrown};
ghost use Rattle.monk_floor.specs.{Making.make_refusal, Making.IsRefused, Releases.MayCallOn, Releases.IsReplyless};
ghost use Rattle.monk_floor.specs.View.{monitor_of, stands_of, empty_floor};

use crate::choosing::{first_ready, must_stay};
use crate::fault::MakeFault;
use crate::fronts::Fronts;
use crate::ledger::Ledger;
use monk_history::{
    Event, From3, LEAST_BUDGET, MOST_BUDGET, MOST_CONDS, MOST_SEATS, Next, Turn, Via,
};
use monk_kinds::{Kind, Pick, rules_of};
use monk_object::{Guarded, Op};
use std::alloc::{AllocError, Global};
use std::marker::{Model, PhantomData};
use std::snapshot::Snapshot;

mod paths;
mod plain;

/// The floor of a monitor of kind `K` over an object `T`: the object, the queues and the history.
///
/// In contracts, a floor is its object's opening state, its numbers and its history. The definitions compute the
/// data, the queues, the turn and who is inside from these.
///
/// Making a floor takes memory for `seats * budget` events and for the counts of the seats. The queues are links in
/// arrays of fixed size. No later call takes memory. The time of a call doesn't depend on the length of the history.
/// It is constant, or linear in the number of waits-until if the call says so.
#[derive(Drop)]
pub struct Floor<K: Kind, T: Guarded> {
    object: T,
    opening: Snapshot<T>,
    history: Vec<Event>,
    ledger: Ledger,
    seats: u8,
    conds: u8,
    budget: u32,
    kind: PhantomData<K>,
}

impl<K: Kind, T: Guarded> Model for Floor<K, T> {
    ghost use Rattle.std.specs.Prelude.{ℕ, List, vec_capacity};
    ghost use Rattle.monk_history.specs.Meaning.Monitor.{monitor};
    ghost use Rattle.monk_floor.specs.View.{FloorView};
    ghost use Rattle.monk_floor.specs.Kept.{KeepsHistory};

    ghost Value = { FloorView };

    ghost view = { λ f. record {
      opening = T.state f.opening.value;
      seats = f.seats;
      conds = f.conds;
      budget =
          f.budget;
      history = f.history.items;
    } };

    ghost invariant = { λ f. KeepsHistory (monitor K.rules f.seats f.conds T.meaning (T.state f.opening.value)) f.budget
        f.history.items (vec_capacity f.history) f.ledger.queues (T.state f.object) f.ledger.turn f.ledger.inside.items
        f.ledger.spent.items f.ledger.granted.items f.ledger.entered };
}

impl<K: Kind, T: Guarded> Floor<K, T> {
    /// Makes a floor over an object, with no event yet. It has 1 to 32 seats, at most 8 condition variables, and 2 to
    /// 2^20 events for each seat.
    ///
    /// Returns the first fault that applies, lack of memory last, and then drops the object. Takes memory for
    /// `seats * budget` events at once.
    pub fn make(
        alloc: Global,
        object: T,
        seats: u8,
        conds: u8,
        budget: u32,
    ) -> Result<Floor<K, T>, MakeFault>
        ensures made { IfOk result (λ f. (make_refusal seats conds budget ≡ None)
            × (f ≡ empty_floor (T.state object) seats conds budget)) }
        ensures refused { IfErr result (λ e. IsRefused seats conds budget e) }
    {
        if seats < 1 || seats > MOST_SEATS {
            return Err(MakeFault::Seats);
        }
        if conds > MOST_CONDS {
            return Err(MakeFault::Conds);
        }
        if budget < LEAST_BUDGET || budget > MOST_BUDGET {
            return Err(MakeFault::Budget);
        }
        Ok(Self::build(alloc, object, seats, conds, budget)?)
    }

    /// Builds a floor with these numbers, which are in range.
    fn build(
        alloc: Global,
        object: T,
        seats: u8,
        conds: u8,
        budget: u32,
    ) -> Result<Floor<K, T>, AllocError>
        requires seats { seats ≤ MOST_SEATS }
        requires conds { conds ≤ MOST_CONDS }
        requires budget { budget ≤ MOST_BUDGET }
        ensures { IfOk result (λ f. f ≡ empty_floor (T.state object) seats conds budget) }
    {
        let opening = Snapshot::of(&object);
        let history = Vec::with_capacity(alloc, seats as usize * budget as usize)?;
        let ledger = Ledger::make(alloc, seats)?;
        Ok(Floor {
            object,
            opening,
            history,
            ledger,
            seats,
            conds,
            budget,
            kind: PhantomData,
        })
    }

    /// Appends an allowed event that is no act (an act changes the object). Takes constant time. Only an event that
    /// chose a wait-until costs more: the waits-until before it.
    #[inline(always)]
    fn append(&mut self, event: Event)
        requires allowed { IsAllowed (monitor_of K.rules T.meaning self.old) self.old.history event }
        requires left { 0 < left_of self.old.budget self.old.history (events.seat_of event) }
        requires still { (d : List ℕ) → data_after T.meaning d event ≡ d }
        ensures { self.new ≡ record self.old { history = self.old.history ++ event ∷ [] } }
    {
        self.ledger.note(event);
        self.history.push_reserved(event);
    }

    /// Returns what a release chooses by the wish rules, over all queues as they are after its own moves. The next in
    /// `event` isn't read. It judges each wait-until up to the first that is ready.
    #[inline(always)]
    fn next_by(&self, event: Event, entry_known: bool, pick: Pick) -> Next
        requires call { MayCallOn K.rules T.meaning self.now event }
        requires release { IsReplyless T.meaning event }
        ensures { IsChosen K.rules T.meaning self.now event entry_known pick result }
    {
        if must_stay(&self.object, &self.ledger.queues, event) {
            return Next::Stay;
        }
        let fronts = Fronts {
            waiter: self.ledger.queues.front_waiter(event),
            signaller: self.ledger.queues.front_signaller(event),
            ready: first_ready(&self.object, &self.ledger.queues),
        };
        fronts.choose(rules_of::<K>(), event.seat(), entry_known, pick)
    }

    /// Lets in a seat that is outside, if the turn is open. `via` is `Via::Free` if nobody could be chosen from an
    /// inner queue, and `Via::Handed` if somebody let the seat in. Constant time.
    #[inline(always)]
    pub fn enter(&mut self, seat: u8, via: Via)
        requires call { MayCallOn K.rules T.meaning self.old (Event.Enter seat via) }
        requires left { 0 < left_of self.old.budget self.old.history seat }
        ensures { IsGrown K.rules T.meaning self.old (Event.Enter seat via) self.new }
    {
        self.append(Event::Enter(seat, via));
    }

    /// Lets the seat that was chosen from a queue go on. Returns that queue. Constant time.
    #[inline(always)]
    pub fn resume(&mut self, seat: u8) -> From3
        requires seat { seat < self.old.seats }
        requires due { IsDueTo seat (turn self.old.history) }
        requires left { 0 < left_of self.old.budget self.old.history seat }
        ensures { IsGrown K.rules T.meaning self.old (Event.Resume seat result) self.new }
    {
        let queue = self.due();
        self.append(Event::Resume(seat, queue));
        queue
    }

    /// Returns the queue from which the turn is due.
    fn due(&self) -> From3
        requires { IsDueSome (turn self.now.history) }
        ensures { turn self.now.history ≡ Turn.Due (due_seat (turn self.now.history)) result }
    {
        match self.ledger.turn {
            Turn::Due(_, queue) => queue,
            // The turn is due to some seat, as required.
            _ => unreachable!(),
        }
    }

    /// Carries out an operation of the active seat, and returns the reply. Costs what the object's `act` costs.
    #[inline(always)]
    pub fn act(&mut self, seat: u8, op: Op) -> u64
        requires call { MayCallOn K.rules T.meaning self.old (Event.Act seat op 0) }
        requires left { 0 < left_of self.old.budget self.old.history seat }
        ensures grown { IsGrown K.rules T.meaning self.old (Event.Act seat op result) self.new }
        ensures within { result ≤ T.greatest_reply }
    {
        let reply = self.object.act(op);
        self.ledger.note(Event::Act(seat, op, reply));
        self.history.push_reserved(Event::Act(seat, op, reply));
        reply
    }

    /// Whether a predicate holds for the data. Constant time.
    pub fn holds(&self, pred: u8) -> bool
        requires { pred < T.PREDICATES }
        ensures { result ≡ T.meaning.holds (data_of (monitor_of K.rules T.meaning self.now) self.now.history) pred }
    {
        self.object.holds(pred)
    }

    /// Returns the history, which is always legal, and short enough for a text. Constant time.
    pub fn history(&self) -> &[Event]
        ensures history { result.now ≡ self.now.history }
        ensures legal { IsLegal (monitor_of K.rules T.meaning self.now) self.now.history }
        ensures few { length self.now.history ≤ most_lines }
    {
        self.history.as_slice()
    }

    /// Returns how many events a seat has left of its budget. Constant time.
    pub fn left(&self, seat: u8) -> u32
        requires { seat < self.now.seats }
        ensures { result ≡ left_of self.now.budget self.now.history seat }
    {
        self.budget - self.ledger.spent[seat as usize]
    }

    /// Returns how many seats wait on a condition variable. Constant time.
    pub fn waiting(&self, cond: u8) -> u32
        requires { cond < self.now.conds }
        ensures { result ≡ length (condition cond self.now.history) }
    {
        self.ledger.queues.waiting(cond) as u32
    }

    /// Returns how many events chose the seat from a queue. A `stay` doesn't count. Constant time.
    pub fn granted(&self, seat: u8) -> u32
        requires { seat < self.now.seats }
        ensures { result ≡ granted_of self.now.history seat }
    {
        self.ledger.granted[seat as usize]
    }

    /// Returns how many enters there were. Constant time.
    pub fn enters(&self) -> u32
        ensures { result ≡ enters_of self.now.history }
    {
        self.ledger.entered
    }

    /// Whether the seat is in a queue. It is in one if it is inside and doesn't have the turn, so no queue is
    /// searched. Constant time.
    pub fn queued(&self, seat: u8) -> bool
        requires { seat < self.now.seats }
        ensures { result ≡ is_queued self.now.conds seat (stands_of K.rules T.meaning self.now) }
    {
        is_parked(&self.ledger.inside, self.ledger.turn, seat)
    }

    /// Returns the object and the history. The object's state is the data of that history, which is legal and has at
    /// most a budget of events for each seat. Constant time.
    pub fn close(self) -> (T, Vec<Event>)
        ensures object { T.state result.0 ≡ data_of (monitor_of K.rules T.meaning self) self.history }
        ensures history { result.1.items ≡ self.history }
        ensures legal { IsLegal (monitor_of K.rules T.meaning self) self.history }
        ensures few { length self.history ≤ self.seats * self.budget }
    {
        (self.object, self.history)
    }
}

/// Whether a seat is inside and doesn't have the turn.
fn is_parked(inside: &[bool], turn: Turn, seat: u8) -> bool
    requires { seat < length inside.now }
    ensures { result ≡ (slice_index_or inside.now seat false && not (nat_lt 0 (has_turn seat turn))) }
{
    inside[seat as usize] && !has_turn(turn, seat)
}

/// Whether a seat has the turn, or is due to have it.
fn has_turn(turn: Turn, seat: u8) -> bool
    ensures { result ≡ nat_lt 0 (has_turn seat turn) }
{
    match turn {
        Turn::Open => false,
        Turn::Due(due, _) => due == seat,
        Turn::Owned(owner) => owner == seat,
    }
}
