ghost use Rattle.std.specs.Prelude.{◌≡◌};
ghost use Rattle.monk_c.specs.Taken.{told_word};

use monk_hall::Granted;
use monk_kinds::Kind;
use monk_object::Flags;

/// Returns the word that was granted, or 0.
#[inline(always)]
pub fn told<K: Kind>(granted: Option<Granted<K, Flags>>) -> usize
    ensures { result ≡ told_word granted }
{
    match granted {
        None => 0,
        Some(granted) => granted.into_word(),
    }
}
