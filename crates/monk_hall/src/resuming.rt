//! How a thread waits until its seat is active.
ghost use Rattle.std.specs.Prelude.{◌≡◌, ℕ};
ghost use Rattle.monk_hall.specs.Calls.{ComesAfter, HasEntered};

use crate::active::Active;
use crate::hall::Hall;
use crate::parked::Parked;
use monk_kinds::Kind;
use monk_object::Guarded;
use std::sync::Wait;

impl<K: Kind, T: Guarded> Parked<K, T> {
    /// Waits until the seat is active; this is the only call that waits. It polls, then spins briefly, then sleeps on
    /// the word where its grant will come. It sleeps only while the word still has the value from before the poll, so
    /// a grant after the poll keeps it awake.
    ///
    /// Nothing promises that a grant ever comes.
    pub fn resume<R: Wait>(self, rt: &R, hall: &Hall<K, T>) -> Active<K, T>
        requires { self.hall ≡ hall.now.id }
        ensures entered { HasEntered K.rules T.meaning self result }
        ensures did { (n : ℕ) × ComesAfter n self.me result.me }
    {
        let mut parked = self;
        for _ in rt.forever() {
            match parked.watch(hall).poll(hall) {
                Ok(active) => return active,
                Err(polled) => parked = polled.sleep(rt, hall),
            }
        }
        unreachable!()
    }
}
