//! The wake of what a release granted.
ghost use Rattle.std.specs.Prelude.{◌≡◌, IfSome};

use crate::hall::Hall;
use crate::steps::Granted;
use monk_kinds::Kind;
use monk_object::Guarded;

impl<K: Kind, T: Guarded> Granted<K, T> {
    /// Wakes the thread that sleeps on the word, if there is one. If the word is the place of a ticket, and each seat
    /// can have a processor of its own, it may also wake the thread that sleeps for the next ticket. It makes an atomic
    /// load for each of the two, and a call of the system if its thread may sleep.
    pub fn wake(self, hall: &Hall<K, T>)
        requires { self.table ≡ hall.now.id }
    {
        self.wake_in(&hall.words, hall.seats, &hall.pace);
    }
}

impl<K: Kind, T: Guarded> Hall<K, T> {
    /// Wakes the thread that sleeps on what a release granted, if it granted something, and returns the rest of its
    /// answer.
    pub(crate) fn wake_granted<X>(&self, released: (X, Option<Granted<K, T>>)) -> X
        requires { IfSome released.1 (λ g. g.table ≡ self.now.id) }
        ensures { result ≡ released.0 }
    {
        let (answer, granted) = released;
        match granted {
            None => {}
            Some(granted) => granted.wake(self),
        }
        answer
    }
}
