//! A proof that no two tokens of one hall are active.
ghost use Rattle.std.specs.Prelude.{◌≡◌};

use crate::active::Active;
use crate::hall::Hall;
use monk_kinds::Kind;
use monk_object::Guarded;

/// Shows that no two seats of a hall are active: two such tokens of one hall would prove what is false. So two that a
/// program has are of different halls. This is never run.
pub fn never_two_active<K: Kind, T: Guarded>(
    hall: &Hall<K, T>,
    a: &mut Active<K, T>,
    b: &mut Active<K, T>,
)
    requires { (a.old.hall ≡ hall.now.id) × (b.old.hall ≡ hall.now.id) }
    ensures { ⊥ }
{
    hall.words.never(&mut a.seat, &mut b.seat);
}
