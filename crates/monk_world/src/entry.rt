//! How the floor comes out to a seat.

ghost use Rattle.std.specs.Prelude.{◌≡◌, ◌<◌};
ghost use Rattle.monk_floor.specs.View.{monitor_of};
ghost use Rattle.monk_history.specs.Meaning.{Counts.left_of, Reasons.IsAllowed, Turn.turn};
ghost use Rattle.monk_world.specs.{State.with_event, StepTable.out_event};

use crate::source::Source;
use monk_floor::Floor;
use monk_history::Via;
use monk_kinds::Kind;
use monk_object::Guarded;

/// Records the event with which the floor comes out to a seat: its enter or its resume.
#[inline(always)]
pub fn record_entry<K: Kind, T: Guarded>(floor: &mut Floor<K, T>, seat: u8, source: Source)
    requires allowed { IsAllowed (monitor_of K.rules T.meaning floor.old) floor.old.history
        (out_event seat source (turn floor.old.history)) }
    requires seat { seat < floor.old.seats }
    requires left { 0 < left_of floor.old.budget floor.old.history seat }
    ensures { floor.new ≡ with_event floor.old (out_event seat source (turn floor.old.history)) }
{
    match source {
        Source::Free(_) => floor.enter(seat, Via::Free),
        Source::Granted(_) => floor.enter(seat, Via::Handed),
        Source::Called => {
            floor.resume(seat);
        }
    }
}
