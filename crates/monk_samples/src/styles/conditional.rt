//! The kinds with condition variables.
ghost use Rattle.std.specs.Prelude.{◌≡◌, ◌<◌, true, not, MatchResult};
ghost use Rattle.monk_history.specs.Meaning.{Conditions.condition, Events.has_conditions, Signallers.is_empty};
ghost use Rattle.monk_samples.specs.Styles.{HasPaused, HasGivenUp, for_handing_over};

use monk_hall::{Active, Hall, Pass};
use monk_history::{Event, Next};
use monk_kinds::{Kind, Pick};
use monk_object::Guarded;
use std::sync::Wait;

/// Waits on the condition, with that wish, and resumes. With fewer than three events left it leaves instead.
pub(crate) fn pause<K: Kind, T: Guarded, R: Wait>(
    active: Active<K, T>,
    rt: &R,
    hall: &Hall<K, T>,
    cond: u8,
    wish: Pick,
) -> Result<Active<K, T>, Pass<K, T>>
    requires mode { has_conditions K.rules.mode ≡ true }
    requires hall { active.hall ≡ hall.now.id }
    requires cond { cond < active.me.setting.conds }
    ensures { MatchResult result (λ a. HasPaused K.rules T.meaning wish active
        (Event.Wait active.me.seat cond Next.Stay) a)
        (λ p. HasGivenUp K.rules T.meaning for_handing_over active p) }
{
    if active.left() < 3 {
        return Err(active.leave(hall, Pick::Waiter));
    }
    Ok(active.plain_wait(hall, cond, wish).resume(rt, hall))
}

/// Whether the condition's queue has somebody.
pub(crate) fn waits<K: Kind, T: Guarded>(active: &Active<K, T>, cond: u8) -> bool
    requires { cond < active.now.me.setting.conds }
    ensures { result ≡ not (is_empty (condition cond active.now.floor.history)) }
{
    active.waiting(cond) > 0
}
