ghost use Rattle.std.specs.Prelude.{◌≡◌};

use crate::pace::Pace;
use crate::steps::Words;
use monk_kinds::Kind;
use monk_object::Guarded;
use std::marker::Model;
use std::thread::{Threads, available_parallelism};

/// A monitor of kind `K` over an object `T`, for as many threads as it has seats.
///
/// Contracts see which table a hall is, and what was fixed when it was made. A token is of this hall if it names the
/// same table.
#[derive(Drop)]
pub struct Hall<K: Kind, T: Guarded> {
    pub(crate) words: Words<K, T>,
    pub(crate) seats: u8,
    pub(crate) pace: Pace,
}

impl<K: Kind, T: Guarded> Model for Hall<K, T> {
    ghost use Rattle.std.specs.Prelude.{◌≡◌, ◌<◌};
    ghost use Rattle.monk_hall.specs.Rule.{setting_of};
    ghost use Rattle.monk_hall.specs.Tells.{IsSized};
    ghost use Rattle.monk_hall.specs.Tokens.{House};

    ghost Value = { House };

    ghost view = { λ h. record {
      id = h.words.table.shared.table_id;
      setting =
          setting_of (T.state h.words.table.shared.key.opening.value) h.words.table.shared.key.seats
          h.words.table.shared.key.conds
          h.words.table.shared.key.budget;
    } };

    ghost invariant = { λ h. IsSized h.words.table.shared.table_id h.words.table.shared.key.seats
        × (h.seats ≡ h.words.table.shared.key.seats) × (0 < h.seats) };
}

impl<K: Kind, T: Guarded> Hall<K, T> {
    /// Finds out on how many processors this process may run, and lets its threads wait accordingly. If that isn't
    /// known it takes one, as if this were not called.
    ///
    /// A hall with no more seats than processors lets a seat look for longer before its thread sleeps, and wakes a
    /// thread before its turn. No contract speaks of this: only time rests on it.
    pub fn find_processors<R: Threads>(&mut self, rt: &R)
        ensures { self.new ≡ self.old }
    {
        match available_parallelism(rt) {
            Ok(count) => self.set_processors(count.get()),
            Err(_) => self.set_processors(1),
        }
    }

    /// Says on how many processors its threads may run, for a program that knows better than the system
    /// (`find_processors`). 0 is taken as 1, and a number above that of the seats as enough.
    pub fn set_processors(&mut self, processors: usize)
        ensures { self.new ≡ self.old }
    {
        self.pace.set_processors(processors);
    }
}
