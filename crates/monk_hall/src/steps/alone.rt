//! What a hall's end needs: a look at its ticket word that found nobody.
ghost use Rattle.std.specs.Prelude.{◌≡◌, ◌≤◌, None, IfSome};
ghost use Rattle.monk_hall.specs.Layout.{unpassed};

use crate::places::unpassed;
use std::snapshot::Snapshot;

/// That the active seat of a call looked at the ticket word of this table, and found no ticket but the one in use. Only
/// the steps can make one, and `peek_alone` makes one of what its look finds. Without one no floor leaves its box.
pub(crate) struct Alone<S> {
    found: u64,
    of: Snapshot<S>,
    ghost nobody: { unpassed found ≤ 1 },
}

impl<S> Alone<S> {
    /// Returns what a hall's end needs, if this was found in the ticket word of that table and has no ticket but the
    /// one in use.
    pub(super) fn of(found: u64, table: &S) -> Option<Alone<S>>
        ensures some { IfSome result (λ a. (a.found ≡ found) × (a.of.value ≡ table.now)) }
        ensures none { result ≡ None → 2 ≤ unpassed found }
    {
        if unpassed(found) >= 2 {
            return None;
        }
        Some(Alone {
            found,
            of: Snapshot::of(table),
        })
    }

    /// Its hall ends: it can't be used again.
    pub(crate) fn spend(self) {
        let Alone { found: _, of: _ } = self;
    }
}
