ghost use Rattle.std.specs.Prelude.{◌≡◌, ◌+◌, IfOk, MatchResult};
ghost use Rattle.monk_samples.specs.Styles.{MayFinish, MayPause, Offers, HasPaused, HasGivenUp, HasFinished, HoldsByKind};
ghost use Rattle.monk_samples.specs.Styles.{for_handing_over, has_waiting, pause_call, way_out};

use crate::end::End;
use crate::styles::{automatic, conditional, explicit};
use monk_hall::{Active, Hall, Pass};
use monk_kinds::{Kind, Mode, Npb, Npir, Npis, Npnb, Npqb, Pb, Pick, Pir, Pis, Pnb, Pqb, rules_of};
use monk_object::Guarded;
use std::sync::Wait;

/// How a seat waits for others and lets them go on, under a kind of monitor. A member that is generic over `K: Style`
/// serves all ten kinds.
///
/// A member names a condition variable and the predicate that goes with it, and a kind uses the one that it has. The
/// wish of `pause` and `finish` is for a waiter: if the priorities leave it open, the seat that was signalled goes
/// on.
pub trait Style: Kind {
    /// Pauses: waits on the condition until it is signalled, or under an automatic kind until the predicate holds. If
    /// others may come in between, the predicate need not hold afterwards, so a caller looks again.
    ///
    /// With fewer than three events left it leaves instead, and returns the pass.
    final fn pause<T: Guarded, R: Wait>(
        active: Active<Self, T>,
        rt: &R,
        hall: &Hall<Self, T>,
        cond: u8,
        pred: u8,
    ) -> Result<Active<Self, T>, Pass<Self, T>>
        requires { MayPause Self.rules hall.now.id active cond T.PREDICATES pred }
        ensures { MatchResult result
            (λ a. HasPaused Self.rules T.meaning Pick.Waiter active (pause_call Self.rules active.me.seat cond pred) a)
            (λ p. HasGivenUp Self.rules T.meaning for_handing_over active p) }
    {
        Self::pause_by(active, rt, hall, cond, pred, Pick::Waiter)
    }

    /// Pauses as [`pause`](Style::pause) does, with its own wish for whom its release lets go on.
    final fn pause_by<T: Guarded, R: Wait>(
        active: Active<Self, T>,
        rt: &R,
        hall: &Hall<Self, T>,
        cond: u8,
        pred: u8,
        wish: Pick,
    ) -> Result<Active<Self, T>, Pass<Self, T>>
        requires { MayPause Self.rules hall.now.id active cond T.PREDICATES pred }
        ensures paused { MatchResult result
            (λ a. HasPaused Self.rules T.meaning wish active (pause_call Self.rules active.me.seat cond pred) a)
            (λ p. HasGivenUp Self.rules T.meaning for_handing_over active p) }
        // Under an automatic kind nothing has changed since the predicate was found true.
        ensures holds { IfOk result (λ a. HoldsByKind Self.rules T.meaning pred a) }
    {
        match rules_of::<Self>().mode {
            Mode::Automatic => automatic::pause(active, rt, hall, pred, wish),
            _ => conditional::pause(active, rt, hall, cond, wish),
        }
    }

    /// Goes out, and signals the condition on the way: by a signal and a leave, or by one call that does both. Under
    /// an automatic kind it leaves, which lets a task go on whose predicate holds.
    ///
    /// Returns `Tired` if the kind has a signaller queue and fewer than three events are left; then it has left
    /// without a signal. It never returns `Late`.
    final fn finish<T: Guarded, R: Wait>(
        active: Active<Self, T>,
        rt: &R,
        hall: &Hall<Self, T>,
        cond: u8,
    ) -> (Pass<Self, T>, End)
        requires { MayFinish Self.rules hall.now.id active cond }
        ensures { HasFinished Self.rules T.meaning Pick.Waiter active (way_out Self.rules active.me.seat cond)
            result.0 result.1 }
    {
        Self::finish_by(active, rt, hall, cond, Pick::Waiter)
    }

    /// Goes out as [`finish`](Style::finish) does, with its own wish for whom its releases let go on.
    final fn finish_by<T: Guarded, R: Wait>(
        active: Active<Self, T>,
        rt: &R,
        hall: &Hall<Self, T>,
        cond: u8,
        wish: Pick,
    ) -> (Pass<Self, T>, End)
        requires { MayFinish Self.rules hall.now.id active cond }
        ensures { HasFinished Self.rules T.meaning wish active
            (way_out Self.rules active.me.seat cond) result.0 result.1 }
    {
        match rules_of::<Self>().mode {
            Mode::Automatic => (active.leave(hall, wish), End::Done),
            Mode::ImmediateReturn => { (active.plain_signal_leave(hall, cond, wish), End::Done) }
            _ => explicit::finish(active, rt, hall, cond, wish),
        }
    }

    /// Whether somebody waits on the condition. Under an automatic kind the answer is always no.
    final fn waits<T: Guarded>(active: &Active<Self, T>, cond: u8) -> bool
        requires { Offers Self.rules active.now.me.setting.conds (cond + 1) }
        ensures { result ≡ has_waiting Self.rules cond active.now.floor.history }
    {
        match rules_of::<Self>().mode {
            Mode::Automatic => false,
            _ => conditional::waits(active, cond),
        }
    }
}

impl Style for Pb {}

impl Style for Npb {}

impl Style for Pnb {}

impl Style for Npnb {}

impl Style for Pqb {}

impl Style for Npqb {}

impl Style for Pir {}

impl Style for Npir {}

impl Style for Pis {}

impl Style for Npis {}
