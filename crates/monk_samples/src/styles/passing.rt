//! The kinds of immediate return, whose signaller may wait by the same call.
ghost use Rattle.std.specs.Prelude.{◌≡◌, ◌<◌, [], ◌∷◌};
ghost use Rattle.monk_samples.specs.Styles.{HasGoneOut};

use crate::end::End;
use monk_hall::{Active, Hall, Pass};
use monk_history::{Event, Next};
use monk_kinds::{ImmediateReturn, Pick};
use monk_object::Guarded;
use std::sync::Wait;

/// Signals the first condition, waits on the second, and leaves when it is back. With fewer than three events left it
/// only leaves.
pub(crate) fn signal_wait_and_leave<K: ImmediateReturn, T: Guarded, R: Wait>(
    active: Active<K, T>,
    rt: &R,
    hall: &Hall<K, T>,
    cond: u8,
    wait_cond: u8,
) -> (Pass<K, T>, End)
    requires hall { active.hall ≡ hall.now.id }
    requires cond { cond < active.me.setting.conds }
    requires wait_cond { wait_cond < active.me.setting.conds }
    ensures { HasGoneOut K.rules T.meaning Pick.Waiter active
        (Event.SignalWait active.me.seat cond wait_cond Next.Stay ∷ Event.Leave active.me.seat Next.Stay ∷ [])
        result.0 result.1 }
{
    if active.left() < 3 {
        return (active.leave(hall, Pick::Waiter), End::Tired);
    }
    let active = active
        .signal_wait(hall, cond, wait_cond, Pick::Waiter)
        .resume(rt, hall);
    (active.leave(hall, Pick::Waiter), End::Done)
}
