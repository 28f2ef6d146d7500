//! The calls by the general scheduler step. They serve any kind that has them.
ghost use Rattle.std.specs.Prelude.{◌≡◌, ◌<◌, length, Some};
ghost use Rattle.monk_history.specs.Meaning.{Conditions.condition, Counts.left_of, Release.with_next};
ghost use Rattle.monk_history.specs.Meaning.Events.{next_of, seat_of};
ghost use Rattle.monk_floor.specs.{Chosen.HasChosen, Grown.IsGrown, Releases.MayCallOn};

use crate::floor::Floor;
use monk_history::{Event, Next};
use monk_kinds::{Kind, Pick};
use monk_object::Guarded;

impl<K: Kind, T: Guarded> Floor<K, T> {
    /// Makes a release by the general scheduler step. `call` is the event as its caller knows it, without the choice.
    #[inline(always)]
    fn plain_release(&mut self, call: Event, pick: Pick, entry_known: bool) -> Next
        requires call { MayCallOn K.rules T.meaning self.old call }
        requires release { next_of call ≡ Some Next.Stay }
        requires left { 0 < left_of self.old.budget self.old.history (seat_of call) }
        ensures { HasChosen K.rules T.meaning self.old (λ n. with_next n call) entry_known pick result self.new }
    {
        let next = self.next_by(call, entry_known, pick);
        self.append(call.with_next(next));
        next
    }

    /// Makes the active seat leave the monitor, by the general scheduler step.
    ///
    /// The step chooses who goes on, among the queues as they are after the release's own moves. The front of the
    /// waiter queue (under automatic kinds the first ready seat) may be chosen if no signaller of greater priority
    /// waits. The front of the signaller queue may be chosen if no waiter of greater priority waits. Entry may be
    /// chosen if neither has a greater priority than entry. The survey leaves open which of several is chosen. `pick`
    /// is taken if it may be chosen, and entry only if `entry_known` says that somebody waits for it. Otherwise the
    /// waiter goes before the signaller, and entry is chosen only if nobody else could be.
    ///
    /// It judges the predicate of each wait-until up to the first that is ready. If there are none, it takes constant
    /// time. Each call of the general scheduler step costs that.
    pub fn plain_leave(&mut self, seat: u8, pick: Pick, entry_known: bool) -> Next
        requires call { MayCallOn K.rules T.meaning self.old (Event.Leave seat Next.Stay) }
        requires left { 0 < left_of self.old.budget self.old.history seat }
        ensures { HasChosen K.rules T.meaning self.old (Event.Leave seat) entry_known pick result self.new }
    {
        self.plain_release(Event::Leave(seat, Next::Stay), pick, entry_known)
    }

    /// Makes the active seat wait on a condition variable, by the general scheduler step. It joins the back of that
    /// condition's queue, and somebody else goes on. Costs what `plain_leave` costs.
    pub fn plain_wait(&mut self, seat: u8, cond: u8, pick: Pick, entry_known: bool) -> Next
        requires call { MayCallOn K.rules T.meaning self.old (Event.Wait seat cond Next.Stay) }
        requires left { 0 < left_of self.old.budget self.old.history seat }
        ensures { HasChosen K.rules T.meaning self.old (Event.Wait seat cond) entry_known pick result self.new }
    {
        self.plain_release(Event::Wait(seat, cond, Next::Stay), pick, entry_known)
    }

    /// Makes the active seat signal a condition variable, by the general scheduler step. The first that waits on it
    /// joins the waiter queue, and the caller the signaller queue. Returns `Next::Stay` if the caller goes on. This
    /// is so if it was chosen from the signaller queue, or if nobody waits on the condition. Then the signal is
    /// forgotten. Costs what `plain_leave` costs.
    pub fn plain_signal(&mut self, seat: u8, cond: u8, pick: Pick, entry_known: bool) -> Next
        requires call { MayCallOn K.rules T.meaning self.old (Event.Signal seat cond Next.Stay) }
        requires left { 0 < left_of self.old.budget self.old.history seat }
        ensures { HasChosen K.rules T.meaning self.old (Event.Signal seat cond) entry_known pick result self.new }
    {
        self.plain_release(Event::Signal(seat, cond, Next::Stay), pick, entry_known)
    }

    /// Makes the active seat signal a condition variable and leave the monitor, by the general scheduler step. It
    /// leaves also if nobody waits on the condition. Costs what `plain_leave` costs.
    pub fn plain_signal_leave(&mut self, seat: u8, cond: u8, pick: Pick, entry_known: bool) -> Next
        requires call { MayCallOn K.rules T.meaning self.old (Event.SignalLeave seat cond Next.Stay) }
        requires left { 0 < left_of self.old.budget self.old.history seat }
        ensures { HasChosen K.rules T.meaning self.old (Event.SignalLeave seat cond) entry_known pick result self.new }
    {
        let call = Event::SignalLeave(seat, cond, Next::Stay);
        self.plain_release(call, pick, entry_known)
    }

    /// Makes the active seat signal the first condition variable and then wait on the second, by the general
    /// scheduler step. The first waiter of the one joins the waiter queue, and then the caller the back of the
    /// other's queue. So it never serves itself, even if both are one condition. If nobody waits on the first, the
    /// signal is forgotten. Somebody else goes on. Costs what `plain_leave` costs.
    pub fn plain_signal_wait(
        &mut self,
        seat: u8,
        cond: u8,
        wait_cond: u8,
        pick: Pick,
        entry_known: bool,
    ) -> Next
        requires call { MayCallOn K.rules T.meaning self.old (Event.SignalWait seat cond wait_cond Next.Stay) }
        requires left { 0 < left_of self.old.budget self.old.history seat }
        ensures { HasChosen K.rules T.meaning self.old
            (Event.SignalWait seat cond wait_cond) entry_known pick result self.new }
    {
        let call = Event::SignalWait(seat, cond, wait_cond, Next::Stay);
        self.plain_release(call, pick, entry_known)
    }

    /// Makes the active seat signal all who wait on a condition variable, and go on. They join the back of the waiter
    /// queue in their order. Returns how many they are. Nobody is chosen. Constant time.
    pub fn plain_signal_all(&mut self, seat: u8, cond: u8) -> u32
        requires call { MayCallOn K.rules T.meaning self.old (Event.SignalAll seat cond) }
        requires left { 0 < left_of self.old.budget self.old.history seat }
        ensures grown { IsGrown K.rules T.meaning self.old (Event.SignalAll seat cond) self.new }
        ensures served { result ≡ length (condition cond self.old.history) }
    {
        let served = self.waiting(cond);
        self.append(Event::SignalAll(seat, cond));
        served
    }

    /// Makes the active seat wait until a predicate holds for the data, by the general scheduler step. If it holds at
    /// once, the seat stays. Costs what `plain_leave` costs.
    pub fn plain_until(&mut self, seat: u8, pred: u8, pick: Pick, entry_known: bool) -> Next
        requires call { MayCallOn K.rules T.meaning self.old (Event.Until seat pred Next.Stay) }
        requires left { 0 < left_of self.old.budget self.old.history seat }
        ensures { HasChosen K.rules T.meaning self.old (Event.Until seat pred) entry_known pick result self.new }
    {
        self.plain_release(Event::Until(seat, pred, Next::Stay), pick, entry_known)
    }
}
