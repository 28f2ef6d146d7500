//! The calls by which the active seat releases the monitor. If the wish is for entry, a call may look at the ticket
//! word. It takes the floor home unless the seat stays, and hands the right on.
ghost use Rattle.std.specs.Prelude.{◌≡◌, ◌&&◌, false, true, Some};
ghost use Rattle.monk_history.specs.Meaning.Events.{is_stay};
ghost use Rattle.monk_world.specs.declared.home.Home.TheVariants as home;
ghost use Rattle.monk_hall.specs.{Granting.GrantsOut, Recorded.HasRecorded};
ghost use Rattle.monk_hall.specs.Calls.{GoesOut, HasPeeked, is_entry_known, peeks_of, wants_entry};

use crate::active::Active;
use crate::after::After;
use crate::hall::Hall;
use crate::parked::Parked;
use crate::pass::Pass;
use crate::places::unpassed;
use crate::release::Release;
use crate::steps;
use crate::steps::Granted;
use monk_history::{Event, Next};
use monk_kinds::{Automatic, Conditional, Explicit, ImmediateReturn, Kind, NonBlocking, Pick};
use monk_object::Guarded;

/// Whether a release looks at the ticket word: its wish is for entry, and there is something to choose.
fn asks_for_entry(chooses: bool, pick: Pick) -> bool
    ensures { result ≡ (chooses && wants_entry pick) }
{
    chooses && matches!(pick, Pick::Entry)
}

impl<K: Kind, T: Guarded> Active<K, T> {
    /// Looks at the ticket word. Returns whether somebody waits for entry.
    pub(crate) fn peek(&mut self, hall: &Hall<K, T>) -> bool
        requires { self.old.hall ≡ hall.now.id }
        ensures peeked { HasPeeked 1 self.old self.new }
        ensures known { result ≡ self.new.me.known }
    {
        let found = steps::peek(&hall.words, &mut self.seat);
        unpassed(found) >= 2
    }

    /// Looks at the ticket word if the wish is for entry and there is something to choose. Returns whether somebody
    /// is known to wait for entry.
    #[inline(always)]
    pub(crate) fn look_for_entry(&mut self, hall: &Hall<K, T>, chooses: bool, pick: Pick) -> bool
        requires { self.old.hall ≡ hall.now.id }
        ensures peeked { HasPeeked (peeks_of chooses pick) self.old self.new }
        ensures known { chooses ≡ true → result ≡ is_entry_known pick self.new.me.known }
    {
        if asks_for_entry(chooses, pick) {
            return self.peek(hall);
        }
        false
    }

    /// Leaves the monitor, in at most four steps.
    ///
    /// The scheduler step chooses who goes on by the priorities of the kind. The wish decides if they leave it open.
    /// A wish for entry is taken only if a look at the ticket word finds somebody there.
    pub fn leave(self, hall: &Hall<K, T>, pick: Pick) -> Pass<K, T>
        requires { self.hall ≡ hall.now.id }
        ensures { GoesOut K.rules T.meaning self (Event.Leave self.me.seat Next.Stay) pick result }
    {
        hall.wake_granted(self.leave_quietly(hall, pick))
    }

    /// As `leave`, but wakes nobody: it returns what it granted, which must be spent (`Granted`).
    #[inline(always)]
    pub fn leave_quietly(self, hall: &Hall<K, T>, pick: Pick) -> (Pass<K, T>, Option<Granted<K, T>>)
        requires { self.hall ≡ hall.now.id }
        ensures { GrantsOut K.rules T.meaning self
            (Event.Leave self.me.seat Next.Stay) pick result.0 hall.now result.1 }
    {
        let mut active = self;
        let known = active.look_for_entry(hall, true, pick);
        active.record_leave(pick, known).go_outside(hall)
    }

    #[inline(always)]
    fn record_leave(self, pick: Pick, known: bool) -> Release<K, T>
        requires known { known ≡ is_entry_known pick self.me.known }
        ensures table { result.seat.table_id ≡ self.hall }
        ensures recorded { HasRecorded K.rules T.meaning self
            (λ n. Event.Leave n Next.Stay) pick known home.Idle result }
        ensures away { is_stay (Some result.choice) ≡ false }
    {
        let mut release = Release::of(self);
        release.choice = release.floor.leave(release.numbers.seat, pick, known);
        release
    }
}

impl<K: Conditional, T: Guarded> Active<K, T> {
    ghost use Rattle.std.specs.Prelude.{◌≡◌, ◌+◌, ◌<◌, ◌≤◌, length};
    ghost use Rattle.monk_hall.specs.Calls.{ParksInside};
    ghost use Rattle.monk_hall.specs.Granting.{GrantsInside};

    /// Waits on a condition variable until it is signalled, in at most four steps. The seat is parked inside. The
    /// scheduler step and the wish are as at `leave`.
    pub fn wait(self, hall: &Hall<K, T>, cond: u8, pick: Pick) -> Parked<K, T>
        requires hall { self.hall ≡ hall.now.id }
        requires cond { cond < self.me.setting.conds }
        requires left { length self.me.mine + 3 ≤ self.me.setting.budget }
        ensures { ParksInside K.rules T.meaning self (Event.Wait self.me.seat cond Next.Stay) pick result }
    {
        hall.wake_granted(self.wait_quietly(hall, cond, pick))
    }

    /// As `wait`, but wakes nobody: it returns what it granted, which must be spent (`Granted`).
    pub fn wait_quietly(
        self,
        hall: &Hall<K, T>,
        cond: u8,
        pick: Pick,
    ) -> (Parked<K, T>, Option<Granted<K, T>>)
        requires hall { self.hall ≡ hall.now.id }
        requires cond { cond < self.me.setting.conds }
        requires left { length self.me.mine + 3 ≤ self.me.setting.budget }
        ensures { GrantsInside K.rules T.meaning self
            (Event.Wait self.me.seat cond Next.Stay) pick result.0 hall.now result.1 }
    {
        self.plain_wait_quietly(hall, cond, pick)
    }
}

impl<K: Explicit, T: Guarded> Active<K, T> {
    ghost use Rattle.std.specs.Prelude.{◌≡◌, ◌+◌, ◌<◌, ◌≤◌, length};
    ghost use Rattle.monk_hall.specs.AfterCalls.{StaysOrParks};
    ghost use Rattle.monk_hall.specs.Granting.{StaysOrGrants};

    /// Signals a condition variable, in at most four steps. The first that waits on it becomes a waiter and the
    /// caller a signaller. The scheduler step chooses among all of them; the wish is as at `leave`. If the caller
    /// itself is chosen, it stays active and takes no step but the look. If nobody waits on the condition, the signal
    /// has no effect and is forgotten: the caller goes on, and takes no step at all.
    pub fn signal(self, hall: &Hall<K, T>, cond: u8, pick: Pick) -> After<K, T>
        requires hall { self.hall ≡ hall.now.id }
        requires cond { cond < self.me.setting.conds }
        requires left { length self.me.mine + 3 ≤ self.me.setting.budget }
        ensures { StaysOrParks K.rules T.meaning self (Event.Signal self.me.seat cond Next.Stay) pick result }
    {
        hall.wake_granted(self.signal_quietly(hall, cond, pick))
    }

    /// As `signal`, but wakes nobody: it returns what it granted, which must be spent (`Granted`).
    pub fn signal_quietly(
        self,
        hall: &Hall<K, T>,
        cond: u8,
        pick: Pick,
    ) -> (After<K, T>, Option<Granted<K, T>>)
        requires hall { self.hall ≡ hall.now.id }
        requires cond { cond < self.me.setting.conds }
        requires left { length self.me.mine + 3 ≤ self.me.setting.budget }
        ensures { StaysOrGrants K.rules T.meaning self
            (Event.Signal self.me.seat cond Next.Stay) pick result.0 hall.now result.1 }
    {
        self.plain_signal_quietly(hall, cond, pick)
    }
}

impl<K: NonBlocking, T: Guarded> Active<K, T> {
    ghost use Rattle.std.specs.Prelude.{◌≡◌, ◌+◌, ◌<◌, ◌≤◌, length};
    ghost use Rattle.monk_history.specs.Meaning.Conditions.{condition};
    ghost use Rattle.monk_hall.specs.Calls.{HasDone};

    /// Signals a condition variable and goes on. No step is taken: under a non-blocking kind a signaller always stays.
    pub fn signal_stay(&mut self, cond: u8)
        requires cond { cond < self.old.me.setting.conds }
        requires left { length self.old.me.mine + 2 ≤ self.old.me.setting.budget }
        ensures { HasDone K.rules T.meaning self.old (Event.Signal self.old.me.seat cond Next.Stay) self.new }
    {
        self.floor
            .signal(self.numbers.seat, cond, Pick::Signaller, false);
    }

    /// Signals all who wait on a condition variable, and goes on. They become waiters in the order of their waits.
    /// Returns how many they are. No step is taken.
    pub fn signal_all(&mut self, cond: u8) -> u32
        requires cond { cond < self.old.me.setting.conds }
        requires left { length self.old.me.mine + 2 ≤ self.old.me.setting.budget }
        ensures done { HasDone K.rules T.meaning self.old (Event.SignalAll self.old.me.seat cond) self.new }
        ensures woke { result ≡ length (condition cond self.old.floor.history) }
    {
        self.floor.signal_all(self.numbers.seat, cond)
    }
}

impl<K: ImmediateReturn, T: Guarded> Active<K, T> {
    ghost use Rattle.std.specs.Prelude.{◌≡◌, ◌+◌, ◌<◌, ◌≤◌, false, Some, length};
    ghost use Rattle.monk_history.specs.Meaning.Events.{is_stay};
    ghost use Rattle.monk_world.specs.declared.home.Home.TheVariants as home;
    ghost use Rattle.monk_hall.specs.Calls.{GoesOut, ParksInside, is_entry_known};
    ghost use Rattle.monk_hall.specs.Granting.{GrantsInside, GrantsOut};
    ghost use Rattle.monk_hall.specs.Recorded.{HasRecorded};

    /// Signals a condition variable and leaves the monitor, in at most four steps. It leaves also if nobody waits on
    /// the condition. The scheduler step and the wish are as at `leave`.
    pub fn signal_leave(self, hall: &Hall<K, T>, cond: u8, pick: Pick) -> Pass<K, T>
        requires hall { self.hall ≡ hall.now.id }
        requires cond { cond < self.me.setting.conds }
        ensures { GoesOut K.rules T.meaning self (Event.SignalLeave self.me.seat cond Next.Stay) pick result }
    {
        hall.wake_granted(self.signal_leave_quietly(hall, cond, pick))
    }

    /// As `signal_leave`, but wakes nobody: it returns what it granted, which must be spent (`Granted`).
    pub fn signal_leave_quietly(
        self,
        hall: &Hall<K, T>,
        cond: u8,
        pick: Pick,
    ) -> (Pass<K, T>, Option<Granted<K, T>>)
        requires hall { self.hall ≡ hall.now.id }
        requires cond { cond < self.me.setting.conds }
        ensures { GrantsOut K.rules T.meaning self
            (Event.SignalLeave self.me.seat cond Next.Stay) pick result.0 hall.now result.1 }
    {
        self.plain_signal_leave_quietly(hall, cond, pick)
    }

    /// Signals the first condition variable and then waits on the second, in at most four steps. The first that waits
    /// on the one becomes a waiter. Then the caller is parked inside, at the back of those who wait on the other. It
    /// never serves itself, even if both are one. The scheduler step and the wish are as at `leave`.
    pub fn signal_wait(self, hall: &Hall<K, T>, cond: u8, wait_cond: u8, pick: Pick) -> Parked<K, T>
        requires hall { self.hall ≡ hall.now.id }
        requires cond { cond < self.me.setting.conds }
        requires wait_cond { wait_cond < self.me.setting.conds }
        requires left { length self.me.mine + 3 ≤ self.me.setting.budget }
        ensures { ParksInside K.rules T.meaning self
            (Event.SignalWait self.me.seat cond wait_cond Next.Stay) pick result }
    {
        hall.wake_granted(self.signal_wait_quietly(hall, cond, wait_cond, pick))
    }

    /// As `signal_wait`, but wakes nobody: it returns what it granted, which must be spent (`Granted`).
    pub fn signal_wait_quietly(
        self,
        hall: &Hall<K, T>,
        cond: u8,
        wait_cond: u8,
        pick: Pick,
    ) -> (Parked<K, T>, Option<Granted<K, T>>)
        requires hall { self.hall ≡ hall.now.id }
        requires cond { cond < self.me.setting.conds }
        requires wait_cond { wait_cond < self.me.setting.conds }
        requires left { length self.me.mine + 3 ≤ self.me.setting.budget }
        ensures { GrantsInside K.rules T.meaning self (Event.SignalWait self.me.seat cond wait_cond Next.Stay) pick
            result.0 hall.now result.1 }
    {
        let mut active = self;
        let known = active.look_for_entry(hall, true, pick);
        active
            .record_signal_wait(cond, wait_cond, pick, known)
            .go_inside(hall)
    }

    fn record_signal_wait(self, cond: u8, wait_cond: u8, pick: Pick, known: bool) -> Release<K, T>
        requires cond { cond < self.me.setting.conds }
        requires wait_cond { wait_cond < self.me.setting.conds }
        requires left { length self.me.mine + 3 ≤ self.me.setting.budget }
        requires known { known ≡ is_entry_known pick self.me.known }
        ensures table { result.seat.table_id ≡ self.hall }
        ensures recorded { HasRecorded K.rules T.meaning self
            (λ n. Event.SignalWait n cond wait_cond Next.Stay) pick known
            home.Inner result }
        ensures away { is_stay (Some result.choice) ≡ false }
    {
        let mut release = Release::of(self);
        release.choice = release
            .floor
            .signal_wait(release.numbers.seat, cond, wait_cond, pick, known);
        release
    }
}

impl<K: Automatic, T: Guarded> Active<K, T> {
    ghost use Rattle.std.specs.Prelude.{◌≡◌, ◌+◌, ◌<◌, ◌≤◌, length};
    ghost use Rattle.monk_hall.specs.AfterCalls.{StaysOrParks};
    ghost use Rattle.monk_hall.specs.Granting.{StaysOrGrants};

    /// Waits until a predicate holds for the data, in at most four steps. If it holds at once, the seat stays active
    /// and takes no step. Otherwise it is parked inside until it is chosen among those whose predicate holds. The
    /// scheduler step and the wish are as at `leave`.
    pub fn until(self, hall: &Hall<K, T>, pred: u8, pick: Pick) -> After<K, T>
        requires hall { self.hall ≡ hall.now.id }
        requires pred { pred < T.PREDICATES }
        requires left { length self.me.mine + 3 ≤ self.me.setting.budget }
        ensures { StaysOrParks K.rules T.meaning self (Event.Until self.me.seat pred Next.Stay) pick result }
    {
        hall.wake_granted(self.until_quietly(hall, pred, pick))
    }

    /// As `until`, but wakes nobody: it returns what it granted, which must be spent (`Granted`).
    pub fn until_quietly(
        self,
        hall: &Hall<K, T>,
        pred: u8,
        pick: Pick,
    ) -> (After<K, T>, Option<Granted<K, T>>)
        requires hall { self.hall ≡ hall.now.id }
        requires pred { pred < T.PREDICATES }
        requires left { length self.me.mine + 3 ≤ self.me.setting.budget }
        ensures { StaysOrGrants K.rules T.meaning self
            (Event.Until self.me.seat pred Next.Stay) pick result.0 hall.now result.1 }
    {
        self.plain_until_quietly(hall, pred, pick)
    }
}
