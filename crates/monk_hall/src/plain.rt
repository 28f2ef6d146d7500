//! The releases that only some kinds have, for code that is generic over every kind. Whether the kind has a call is a
//! condition of the call and not a bound, and the floor takes the general scheduler step. The call without `plain_`
//! is made of such a call and has the same contract.
ghost use Rattle.std.specs.Prelude.{◌≡◌, ◌+◌, ◌<◌, ◌≤◌, true, false, not, length, Some};
ghost use Rattle.monk_history.specs.Meaning.Choice.{must_stay};
ghost use Rattle.monk_history.specs.Meaning.Events.{has_conditions, has_signaller_queue, is_stay, returns_at_once};
ghost use Rattle.monk_floor.specs.View.{stands_of};
ghost use Rattle.monk_world.specs.declared.home.Home.TheVariants as home;
ghost use Rattle.monk_hall.specs.{AfterCalls.StaysOrParks, Recorded.HasRecorded};
ghost use Rattle.monk_hall.specs.Granting.{GrantsInside, GrantsOut, StaysOrGrants};
ghost use Rattle.monk_hall.specs.Calls.{GoesOut, KnowsForChoice, ParksInside, is_entry_known};

use crate::active::Active;
use crate::after::After;
use crate::hall::Hall;
use crate::parked::Parked;
use crate::pass::Pass;
use crate::release::Release;
use crate::steps::Granted;
use monk_history::{Event, Next};
use monk_kinds::{Kind, Pick};
use monk_object::Guarded;

impl<K: Kind, T: Guarded> Active<K, T> {
    /// Whether a signal on the condition serves somebody.
    pub(crate) fn serves(&self, cond: u8) -> bool
        requires { cond < self.now.me.setting.conds }
        ensures { result ≡ not
            (must_stay T.meaning (stands_of K.rules T.meaning self.now.floor)
            (Event.Signal self.now.me.seat cond Next.Stay)) }
    {
        self.waiting(cond) > 0
    }

    /// Waits on a condition variable until it is signalled, under a kind with conditions.
    pub fn plain_wait(self, hall: &Hall<K, T>, cond: u8, pick: Pick) -> Parked<K, T>
        requires mode { has_conditions K.rules.mode ≡ true }
        requires hall { self.hall ≡ hall.now.id }
        requires cond { cond < self.me.setting.conds }
        requires left { length self.me.mine + 3 ≤ self.me.setting.budget }
        ensures { ParksInside K.rules T.meaning self (Event.Wait self.me.seat cond Next.Stay) pick result }
    {
        hall.wake_granted(self.plain_wait_quietly(hall, cond, pick))
    }

    /// As `plain_wait`, but wakes nobody: it returns what it granted, which must be spent (`Granted`).
    pub fn plain_wait_quietly(
        self,
        hall: &Hall<K, T>,
        cond: u8,
        pick: Pick,
    ) -> (Parked<K, T>, Option<Granted<K, T>>)
        requires mode { has_conditions K.rules.mode ≡ true }
        requires hall { self.hall ≡ hall.now.id }
        requires cond { cond < self.me.setting.conds }
        requires left { length self.me.mine + 3 ≤ self.me.setting.budget }
        ensures { GrantsInside K.rules T.meaning self
            (Event.Wait self.me.seat cond Next.Stay) pick result.0 hall.now result.1 }
    {
        let mut active = self;
        let known = active.look_for_entry(hall, true, pick);
        active.record_plain_wait(cond, pick, known).go_inside(hall)
    }

    fn record_plain_wait(self, cond: u8, pick: Pick, known: bool) -> Release<K, T>
        requires mode { has_conditions K.rules.mode ≡ true }
        requires cond { cond < self.me.setting.conds }
        requires left { length self.me.mine + 3 ≤ self.me.setting.budget }
        requires known { known ≡ is_entry_known pick self.me.known }
        ensures table { result.seat.table_id ≡ self.hall }
        ensures recorded { HasRecorded K.rules T.meaning self
            (λ n. Event.Wait n cond Next.Stay) pick known home.Inner result }
        ensures away { is_stay (Some result.choice) ≡ false }
    {
        let mut release = Release::of(self);
        release.choice = release
            .floor
            .plain_wait(release.numbers.seat, cond, pick, known);
        release
    }

    /// Signals a condition variable, under a kind with a signaller queue.
    pub fn plain_signal(self, hall: &Hall<K, T>, cond: u8, pick: Pick) -> After<K, T>
        requires mode { has_signaller_queue K.rules.mode ≡ true }
        requires hall { self.hall ≡ hall.now.id }
        requires cond { cond < self.me.setting.conds }
        requires left { length self.me.mine + 3 ≤ self.me.setting.budget }
        ensures { StaysOrParks K.rules T.meaning self (Event.Signal self.me.seat cond Next.Stay) pick result }
    {
        hall.wake_granted(self.plain_signal_quietly(hall, cond, pick))
    }

    /// As `plain_signal`, but wakes nobody: it returns what it granted, which must be spent (`Granted`).
    pub fn plain_signal_quietly(
        self,
        hall: &Hall<K, T>,
        cond: u8,
        pick: Pick,
    ) -> (After<K, T>, Option<Granted<K, T>>)
        requires mode { has_signaller_queue K.rules.mode ≡ true }
        requires hall { self.hall ≡ hall.now.id }
        requires cond { cond < self.me.setting.conds }
        requires left { length self.me.mine + 3 ≤ self.me.setting.budget }
        ensures { StaysOrGrants K.rules T.meaning self
            (Event.Signal self.me.seat cond Next.Stay) pick result.0 hall.now result.1 }
    {
        let chooses = self.serves(cond);
        let mut active = self;
        let known = active.look_for_entry(hall, chooses, pick);
        active.record_plain_signal(cond, pick, known).go_on(hall)
    }

    fn record_plain_signal(self, cond: u8, pick: Pick, known: bool) -> Release<K, T>
        requires mode { has_signaller_queue K.rules.mode ≡ true }
        requires cond { cond < self.me.setting.conds }
        requires left { length self.me.mine + 3 ≤ self.me.setting.budget }
        requires known { KnowsForChoice K.rules T.meaning self (Event.Signal self.me.seat cond Next.Stay) pick known }
        ensures table { result.seat.table_id ≡ self.hall }
        ensures recorded { HasRecorded K.rules T.meaning self
            (λ n. Event.Signal n cond Next.Stay) pick known home.Inner result }
    {
        let mut release = Release::of(self);
        release.choice = release
            .floor
            .plain_signal(release.numbers.seat, cond, pick, known);
        release
    }

    /// Signals a condition variable and leaves, under a kind of immediate return.
    pub fn plain_signal_leave(self, hall: &Hall<K, T>, cond: u8, pick: Pick) -> Pass<K, T>
        requires mode { returns_at_once K.rules.mode ≡ true }
        requires hall { self.hall ≡ hall.now.id }
        requires cond { cond < self.me.setting.conds }
        ensures { GoesOut K.rules T.meaning self (Event.SignalLeave self.me.seat cond Next.Stay) pick result }
    {
        hall.wake_granted(self.plain_signal_leave_quietly(hall, cond, pick))
    }

    /// As `plain_signal_leave`, but wakes nobody: it returns what it granted, which must be spent (`Granted`).
    pub fn plain_signal_leave_quietly(
        self,
        hall: &Hall<K, T>,
        cond: u8,
        pick: Pick,
    ) -> (Pass<K, T>, Option<Granted<K, T>>)
        requires mode { returns_at_once K.rules.mode ≡ true }
        requires hall { self.hall ≡ hall.now.id }
        requires cond { cond < self.me.setting.conds }
        ensures { GrantsOut K.rules T.meaning self
            (Event.SignalLeave self.me.seat cond Next.Stay) pick result.0 hall.now result.1 }
    {
        let mut active = self;
        let known = active.look_for_entry(hall, true, pick);
        active
            .record_plain_signal_leave(cond, pick, known)
            .go_outside(hall)
    }

    fn record_plain_signal_leave(self, cond: u8, pick: Pick, known: bool) -> Release<K, T>
        requires mode { returns_at_once K.rules.mode ≡ true }
        requires cond { cond < self.me.setting.conds }
        requires known { known ≡ is_entry_known pick self.me.known }
        ensures table { result.seat.table_id ≡ self.hall }
        ensures recorded { HasRecorded K.rules T.meaning self
            (λ n. Event.SignalLeave n cond Next.Stay) pick known home.Idle result }
        ensures away { is_stay (Some result.choice) ≡ false }
    {
        let mut release = Release::of(self);
        release.choice = release
            .floor
            .plain_signal_leave(release.numbers.seat, cond, pick, known);
        release
    }

    /// Waits until a predicate holds for the data, under an automatic kind.
    pub fn plain_until(self, hall: &Hall<K, T>, pred: u8, pick: Pick) -> After<K, T>
        requires mode { has_conditions K.rules.mode ≡ false }
        requires hall { self.hall ≡ hall.now.id }
        requires pred { pred < T.PREDICATES }
        requires left { length self.me.mine + 3 ≤ self.me.setting.budget }
        ensures { StaysOrParks K.rules T.meaning self (Event.Until self.me.seat pred Next.Stay) pick result }
    {
        hall.wake_granted(self.plain_until_quietly(hall, pred, pick))
    }

    /// As `plain_until`, but wakes nobody: it returns what it granted, which must be spent (`Granted`).
    pub fn plain_until_quietly(
        self,
        hall: &Hall<K, T>,
        pred: u8,
        pick: Pick,
    ) -> (After<K, T>, Option<Granted<K, T>>)
        requires mode { has_conditions K.rules.mode ≡ false }
        requires hall { self.hall ≡ hall.now.id }
        requires pred { pred < T.PREDICATES }
        requires left { length self.me.mine + 3 ≤ self.me.setting.budget }
        ensures { StaysOrGrants K.rules T.meaning self
            (Event.Until self.me.seat pred Next.Stay) pick result.0 hall.now result.1 }
    {
        let chooses = !self.holds(pred);
        let mut active = self;
        let known = active.look_for_entry(hall, chooses, pick);
        active.record_plain_until(pred, pick, known).go_on(hall)
    }

    fn record_plain_until(self, pred: u8, pick: Pick, known: bool) -> Release<K, T>
        requires mode { has_conditions K.rules.mode ≡ false }
        requires pred { pred < T.PREDICATES }
        requires left { length self.me.mine + 3 ≤ self.me.setting.budget }
        requires known { KnowsForChoice K.rules T.meaning self (Event.Until self.me.seat pred Next.Stay) pick known }
        ensures table { result.seat.table_id ≡ self.hall }
        ensures recorded { HasRecorded K.rules T.meaning self
            (λ n. Event.Until n pred Next.Stay) pick known home.Inner result }
    {
        let mut release = Release::of(self);
        release.choice = release
            .floor
            .plain_until(release.numbers.seat, pred, pick, known);
        release
    }
}
