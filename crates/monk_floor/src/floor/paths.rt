//! The releases by the path of each mode. A path asks only the queues in which the mode can have anybody.
ghost use Rattle.std.specs.Prelude.{◌≡◌, ◌<◌, Bool, true, false, length, Some};
ghost use Rattle.monk_kinds.specs.declared.mode.Pick.{Pick};
ghost use Rattle.monk_history.specs.Meaning.{Conditions.condition, Counts.left_of, Paths.keeps_signallers};
ghost use Rattle.monk_history.specs.Meaning.{Release.with_next};
ghost use Rattle.monk_history.specs.Meaning.Events.{has_conditions, next_of, seat_of, steps_back};
ghost use Rattle.monk_floor.specs.{Chosen.IsChosen, Chosen.HasChosen, Grown.IsGrown};
ghost use Rattle.monk_floor.specs.Releases.{MayCallOn, IsReplyless, MakesNoSignaller, ServesNobody};

use crate::choosing::{equal_choice, first_ready, must_stay, served_choice, single_choice};
use crate::floor::Floor;
use monk_history::{Event, From3, Next};
use monk_kinds::{
    Automatic, Conditional, Explicit, ImmediateReturn, Kind, Mode, NonBlocking, Pick, rules_of,
};
use monk_object::Guarded;

/// Returns the condition that an event signals, if its seat steps back into the signaller queue.
#[inline(always)]
fn signalled(event: Event) -> Option<u8>
    ensures { result ≡ steps_back event }
{
    match event {
        Event::Signal(_, cond, _) => Some(cond),
        _ => None,
    }
}

impl<K: Kind, T: Guarded> Floor<K, T> {
    /// Returns the choice if only the waiter queue counts, under a kind that keeps nobody in the signaller queue.
    fn next_waiter(&self, event: Event, entry_known: bool, pick: Pick) -> Next
        requires conditions { has_conditions K.rules.mode ≡ true }
        requires signallers { keeps_signallers K.rules.mode ≡ false }
        requires call { MayCallOn K.rules T.meaning self.now event }
        requires release { MakesNoSignaller T.meaning event }
        ensures { IsChosen K.rules T.meaning self.now event entry_known pick result }
    {
        let rules = rules_of::<K>();
        let front = self.ledger.queues.front_waiter(event);
        single_choice(
            From3::Waiter,
            rules.waiter <= rules.entry,
            front,
            entry_known,
            pick,
        )
    }

    /// Returns the choice if only the signaller queue counts, under a blocking kind. A served seat is admitted at
    /// once there.
    fn next_signaller(&self, event: Event, entry_known: bool, pick: Pick) -> Next
        requires mode { K.rules.mode ≡ Mode.Blocking }
        requires call { MayCallOn K.rules T.meaning self.now event }
        requires release { ServesNobody T.meaning event }
        ensures { IsChosen K.rules T.meaning self.now event entry_known pick result }
    {
        let rules = rules_of::<K>();
        let front = self.ledger.queues.front_signaller(event);
        single_choice(
            From3::Signaller,
            rules.signaller <= rules.entry,
            front,
            entry_known,
            pick,
        )
    }

    /// Returns the choice if waiters and signallers have one priority, under a quasi-blocking kind.
    fn next_equal(&self, event: Event, entry_known: bool, pick: Pick) -> Next
        requires mode { K.rules.mode ≡ Mode.QuasiBlocking }
        requires call { MayCallOn K.rules T.meaning self.now event }
        requires release { IsReplyless T.meaning event }
        ensures { IsChosen K.rules T.meaning self.now event entry_known pick result }
    {
        if must_stay(&self.object, &self.ledger.queues, event) {
            return Next::Stay;
        }
        let rules = rules_of::<K>();
        let waiter = self.ledger.queues.front_waiter(event);
        let signaller = self.ledger.queues.front_signaller(event);
        equal_choice(
            rules.waiter <= rules.entry,
            waiter,
            signaller,
            event.seat(),
            entry_known,
            pick,
        )
    }

    /// Returns the choice if only the ready seats count, under an automatic kind.
    fn next_ready(&self, event: Event, entry_known: bool, pick: Pick) -> Next
        requires mode { K.rules.mode ≡ Mode.Automatic }
        requires call { MayCallOn K.rules T.meaning self.now event }
        requires release { IsReplyless T.meaning event }
        ensures { IsChosen K.rules T.meaning self.now event entry_known pick result }
    {
        if must_stay(&self.object, &self.ledger.queues, event) {
            return Next::Stay;
        }
        let rules = rules_of::<K>();
        let front = first_ready(&self.object, &self.ledger.queues);
        single_choice(
            From3::Until,
            rules.waiter <= rules.entry,
            front,
            entry_known,
            pick,
        )
    }

    /// Returns the choice of a signal under a blocking kind: the seat that it serves, whatever the wish.
    fn next_served(&self, seat: u8, cond: u8) -> Next
        requires mode { K.rules.mode ≡ Mode.Blocking }
        requires call { MayCallOn K.rules T.meaning self.now (Event.Signal seat cond Next.Stay) }
        ensures { (known : Bool) (pick : Pick)
            → IsChosen K.rules T.meaning self.now (Event.Signal seat cond Next.Stay) known pick result }
    {
        served_choice(self.ledger.queues.front_of(cond))
    }

    /// Returns the choice of a signal under a non-blocking kind: to stay, whatever the wish. No queue is asked.
    fn next_staying(&self, seat: u8, cond: u8) -> Next
        requires mode { K.rules.mode ≡ Mode.NonBlocking }
        requires call { MayCallOn K.rules T.meaning self.now (Event.Signal seat cond Next.Stay) }
        ensures { (known : Bool) (pick : Pick)
            → IsChosen K.rules T.meaning self.now (Event.Signal seat cond Next.Stay) known pick result }
    {
        let _ = &self.history;
        Next::Stay
    }

    /// Returns what a release under a blocking kind chooses.
    #[inline(always)]
    fn next_blocking(&self, event: Event, entry_known: bool, pick: Pick) -> Next
        requires mode { K.rules.mode ≡ Mode.Blocking }
        requires call { MayCallOn K.rules T.meaning self.now event }
        requires release { next_of event ≡ Some Next.Stay }
        ensures { IsChosen K.rules T.meaning self.now event entry_known pick result }
    {
        match signalled(event) {
            Some(cond) => self.next_served(event.seat(), cond),
            None => self.next_signaller(event, entry_known, pick),
        }
    }

    /// Returns what a release under a non-blocking kind chooses.
    #[inline(always)]
    fn next_non_blocking(&self, event: Event, entry_known: bool, pick: Pick) -> Next
        requires mode { K.rules.mode ≡ Mode.NonBlocking }
        requires call { MayCallOn K.rules T.meaning self.now event }
        requires release { next_of event ≡ Some Next.Stay }
        ensures { IsChosen K.rules T.meaning self.now event entry_known pick result }
    {
        match signalled(event) {
            Some(cond) => self.next_staying(event.seat(), cond),
            None => self.next_waiter(event, entry_known, pick),
        }
    }

    /// Returns what a release chooses, by the path of the mode.
    #[inline(always)]
    fn next_past(&self, event: Event, entry_known: bool, pick: Pick) -> Next
        requires call { MayCallOn K.rules T.meaning self.now event }
        requires release { next_of event ≡ Some Next.Stay }
        ensures { IsChosen K.rules T.meaning self.now event entry_known pick result }
    {
        match rules_of::<K>().mode {
            Mode::Blocking => self.next_blocking(event, entry_known, pick),
            Mode::NonBlocking => self.next_non_blocking(event, entry_known, pick),
            Mode::QuasiBlocking => self.next_equal(event, entry_known, pick),
            Mode::ImmediateReturn => self.next_waiter(event, entry_known, pick),
            Mode::Automatic => self.next_ready(event, entry_known, pick),
        }
    }

    /// Makes a release by the path of the mode. `call` is the event as its caller knows it, without the choice.
    #[inline(always)]
    fn release(&mut self, call: Event, pick: Pick, entry_known: bool) -> Next
        requires call { MayCallOn K.rules T.meaning self.old call }
        requires release { next_of call ≡ Some Next.Stay }
        requires left { 0 < left_of self.old.budget self.old.history (seat_of call) }
        ensures { HasChosen K.rules T.meaning self.old (λ n. with_next n call) entry_known pick result self.new }
    {
        let next = self.next_past(call, entry_known, pick);
        self.append(call.with_next(next));
        next
    }

    /// Makes the active seat leave the monitor: `plain_leave` by the path of the mode. Constant time. Under an
    /// automatic kind it judges the predicate of each wait-until up to the first that is ready.
    pub fn leave(&mut self, seat: u8, pick: Pick, entry_known: bool) -> Next
        requires call { MayCallOn K.rules T.meaning self.old (Event.Leave seat Next.Stay) }
        requires left { 0 < left_of self.old.budget self.old.history seat }
        ensures { HasChosen K.rules T.meaning self.old (Event.Leave seat) entry_known pick result self.new }
    {
        self.release(Event::Leave(seat, Next::Stay), pick, entry_known)
    }
}

impl<K: Conditional, T: Guarded> Floor<K, T> {
    /// Makes the active seat wait on a condition variable: `plain_wait` by the path of the mode. Constant time.
    pub fn wait(&mut self, seat: u8, cond: u8, pick: Pick, entry_known: bool) -> Next
        requires call { MayCallOn K.rules T.meaning self.old (Event.Wait seat cond Next.Stay) }
        requires left { 0 < left_of self.old.budget self.old.history seat }
        ensures { HasChosen K.rules T.meaning self.old (Event.Wait seat cond) entry_known pick result self.new }
    {
        self.release(Event::Wait(seat, cond, Next::Stay), pick, entry_known)
    }
}

impl<K: Explicit, T: Guarded> Floor<K, T> {
    /// Makes the active seat signal a condition variable: `plain_signal` by the path of the mode.
    ///
    /// Under a non-blocking kind it stays, and no queue is asked. Under a blocking kind it hands over to the seat
    /// that it serves, and no priority is compared. Constant time.
    pub fn signal(&mut self, seat: u8, cond: u8, pick: Pick, entry_known: bool) -> Next
        requires call { MayCallOn K.rules T.meaning self.old (Event.Signal seat cond Next.Stay) }
        requires left { 0 < left_of self.old.budget self.old.history seat }
        ensures { HasChosen K.rules T.meaning self.old (Event.Signal seat cond) entry_known pick result self.new }
    {
        self.release(Event::Signal(seat, cond, Next::Stay), pick, entry_known)
    }
}

impl<K: NonBlocking, T: Guarded> Floor<K, T> {
    /// Makes the active seat signal all who wait on a condition variable, and go on: `plain_signal_all`, which never
    /// asks a queue who is next. Constant time.
    pub fn signal_all(&mut self, seat: u8, cond: u8) -> u32
        requires call { MayCallOn K.rules T.meaning self.old (Event.SignalAll seat cond) }
        requires left { 0 < left_of self.old.budget self.old.history seat }
        ensures grown { IsGrown K.rules T.meaning self.old (Event.SignalAll seat cond) self.new }
        ensures served { result ≡ length (condition cond self.old.history) }
    {
        self.plain_signal_all(seat, cond)
    }
}

impl<K: ImmediateReturn, T: Guarded> Floor<K, T> {
    /// Makes the active seat signal a condition variable and leave the monitor: `plain_signal_leave` by the path of
    /// the mode. Only the waiter queue counts. Constant time.
    pub fn signal_leave(&mut self, seat: u8, cond: u8, pick: Pick, entry_known: bool) -> Next
        requires call { MayCallOn K.rules T.meaning self.old (Event.SignalLeave seat cond Next.Stay) }
        requires left { 0 < left_of self.old.budget self.old.history seat }
        ensures { HasChosen K.rules T.meaning self.old (Event.SignalLeave seat cond) entry_known pick result self.new }
    {
        let call = Event::SignalLeave(seat, cond, Next::Stay);
        self.release(call, pick, entry_known)
    }

    /// Makes the active seat signal the first condition variable and then wait on the second: `plain_signal_wait` by
    /// the path of the mode. Only the waiter queue counts. Constant time.
    pub fn signal_wait(
        &mut self,
        seat: u8,
        cond: u8,
        wait_cond: u8,
        pick: Pick,
        entry_known: bool,
    ) -> Next
        requires call { MayCallOn K.rules T.meaning self.old (Event.SignalWait seat cond wait_cond Next.Stay) }
        requires left { 0 < left_of self.old.budget self.old.history seat }
        ensures { HasChosen K.rules T.meaning self.old
            (Event.SignalWait seat cond wait_cond) entry_known pick result self.new }
    {
        let call = Event::SignalWait(seat, cond, wait_cond, Next::Stay);
        self.release(call, pick, entry_known)
    }
}

impl<K: Automatic, T: Guarded> Floor<K, T> {
    /// Makes the active seat wait until a predicate holds: `plain_until` by the path of the mode. Only the ready
    /// seats count. It judges the predicate of each wait-until up to the first that is ready.
    pub fn until(&mut self, seat: u8, pred: u8, pick: Pick, entry_known: bool) -> Next
        requires call { MayCallOn K.rules T.meaning self.old (Event.Until seat pred Next.Stay) }
        requires left { 0 < left_of self.old.budget self.old.history seat }
        ensures { HasChosen K.rules T.meaning self.old (Event.Until seat pred) entry_known pick result self.new }
    {
        self.release(Event::Until(seat, pred, Next::Stay), pick, entry_known)
    }
}
