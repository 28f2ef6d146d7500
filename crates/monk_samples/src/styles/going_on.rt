ghost use Rattle.std.specs.Prelude.{◌≡◌};
ghost use Rattle.monk_hall.specs.{AfterCalls.MatchAfter, Calls.HasEntered};

use monk_hall::{Active, After, Hall};
use monk_kinds::Kind;
use monk_object::Guarded;
use std::sync::Wait;

/// Goes on after a call that may have parked the seat. If it did, the seat resumes.
pub(crate) fn go_on<K: Kind, T: Guarded, R: Wait>(
    after: After<K, T>,
    rt: &R,
    hall: &Hall<K, T>,
) -> Active<K, T>
    requires { MatchAfter after (λ a. a.hall ≡ hall.now.id) (λ p. p.hall ≡ hall.now.id) }
    ensures { MatchAfter after (λ a. result ≡ a) (λ p. HasEntered K.rules T.meaning p result) }
{
    match after {
        After::Active(active) => active,
        After::Parked(parked) => parked.resume(rt, hall),
    }
}
