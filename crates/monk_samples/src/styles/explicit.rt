//! The kinds whose signaller stays inside the monitor.
ghost use Rattle.std.specs.Prelude.{◌≡◌, ◌<◌, true, [], ◌∷◌};
ghost use Rattle.monk_history.specs.Meaning.Events.{has_signaller_queue};
ghost use Rattle.monk_samples.specs.Styles.{HasFinished};

use crate::end::End;
use crate::styles::going_on::go_on;
use monk_hall::{Active, Hall, Pass};
use monk_history::{Event, Next};
use monk_kinds::{Kind, Pick};
use monk_object::Guarded;
use std::sync::Wait;

/// Signals the condition, resumes if the signal parked it, and leaves, each with that wish. With fewer than three
/// events left it only leaves.
pub(crate) fn finish<K: Kind, T: Guarded, R: Wait>(
    active: Active<K, T>,
    rt: &R,
    hall: &Hall<K, T>,
    cond: u8,
    wish: Pick,
) -> (Pass<K, T>, End)
    requires mode { has_signaller_queue K.rules.mode ≡ true }
    requires hall { active.hall ≡ hall.now.id }
    requires cond { cond < active.me.setting.conds }
    ensures { HasFinished K.rules T.meaning wish active
        (Event.Signal active.me.seat cond Next.Stay ∷ Event.Leave active.me.seat Next.Stay ∷ []) result.0 result.1 }
{
    if active.left() < 3 {
        return (active.leave(hall, Pick::Waiter), End::Tired);
    }
    let active = go_on(active.plain_signal(hall, cond, wish), rt, hall);
    (active.leave(hall, wish), End::Done)
}
