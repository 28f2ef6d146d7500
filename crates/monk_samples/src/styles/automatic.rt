//! The kinds whose tasks wait until a predicate holds.
ghost use Rattle.std.specs.Prelude.{◌≡◌, ◌<◌, false, IfOk, MatchResult};
ghost use Rattle.monk_history.specs.Meaning.Events.{has_conditions};
ghost use Rattle.monk_samples.specs.Styles.{HasPaused, HasGivenUp, Holds, for_handing_over};

use crate::styles::going_on::go_on;
use monk_hall::{Active, Hall, Pass};
use monk_history::laws::{the_predicate_holds, untils_were_false};
use monk_history::{Event, Next};
use monk_kinds::{Kind, Pick};
use monk_object::Guarded;
use std::sync::Wait;

/// Waits until the predicate holds, with that wish, and resumes if that parked it. With fewer than three events left
/// it leaves instead.
pub(crate) fn pause<K: Kind, T: Guarded, R: Wait>(
    active: Active<K, T>,
    rt: &R,
    hall: &Hall<K, T>,
    pred: u8,
    wish: Pick,
) -> Result<Active<K, T>, Pass<K, T>>
    requires mode { has_conditions K.rules.mode ≡ false }
    requires hall { active.hall ≡ hall.now.id }
    requires pred { pred < T.PREDICATES }
    ensures paused { MatchResult result (λ a. HasPaused K.rules T.meaning wish active
        (Event.Until active.me.seat pred Next.Stay) a)
        (λ p. HasGivenUp K.rules T.meaning for_handing_over active p) }
    ensures holds { IfOk result (λ a. Holds K.rules T.meaning pred a) }
{
    if active.left() < 3 {
        return Err(active.leave(hall, Pick::Waiter));
    }
    untils_were_false();
    the_predicate_holds();
    Ok(go_on(active.plain_until(hall, pred, wish), rt, hall))
}
