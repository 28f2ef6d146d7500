//! The kinds whose signaller goes on, so that it may signal to all.
ghost use Rattle.std.specs.Prelude.{◌≡◌, ◌<◌, [], ◌∷◌};
ghost use Rattle.monk_samples.specs.Styles.{HasGoneOut};

use crate::end::End;
use monk_hall::{Active, Hall, Pass};
use monk_history::{Event, Next};
use monk_kinds::{NonBlocking, Pick};
use monk_object::Guarded;

/// Signals all who wait on the condition, and leaves. With fewer than two events left it only leaves.
pub(crate) fn wake_all_and_leave<K: NonBlocking, T: Guarded>(
    active: Active<K, T>,
    hall: &Hall<K, T>,
    cond: u8,
) -> (Pass<K, T>, End)
    requires hall { active.hall ≡ hall.now.id }
    requires cond { cond < active.me.setting.conds }
    ensures { HasGoneOut K.rules T.meaning Pick.Waiter active
        (Event.SignalAll active.me.seat cond ∷ Event.Leave active.me.seat Next.Stay ∷ []) result.0 result.1 }
{
    let mut active = active;
    if active.left() < 2 {
        return (active.leave(hall, Pick::Waiter), End::Tired);
    }
    active.signal_all(cond);
    (active.leave(hall, Pick::Waiter), End::Done)
}
