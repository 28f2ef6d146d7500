//! What a missing signal is judged by.

ghost use Rattle.monk_judge.specs.{Among.Decides, Missed.Holds, Missed.IsUnsignalled, Shown.IsThere, Shown.state_of};

use crate::judge::Judge;
use crate::place::Place;
use monk_object::Guarded;

impl<T: Guarded> Judge<T> {
    /// Whether somebody is in that place.
    fn has_at(&self, there: Place) -> bool
        ensures { Decides result (IsThere self.now.places there) }
    {
        for place in &self.places {
            if *place == there {
                return true;
            }
        }
        false
    }

    /// Whether somebody sleeps on the condition, and nobody is woken there.
    pub(crate) fn is_unsignalled(&self, cond: u8) -> bool
        ensures { Decides result (IsUnsignalled (state_of self.now) cond) }
    {
        self.has_at(Place::Waiting(cond)) && !self.has_at(Place::Woken(cond))
    }

    /// Whether the object has the predicate, and it holds.
    pub(crate) fn object_holds(&self, pred: u8) -> bool
        ensures { Decides result (Holds T.meaning self.now.data_now pred) }
    {
        pred < T::PREDICATES && self.object.holds(pred)
    }
}
