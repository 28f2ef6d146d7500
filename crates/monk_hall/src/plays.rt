//! The kinds of step, each with what its seat knows after it, and the two moves of seats.
ghost use Rattle.std.specs.Prelude.{[]};
ghost use Rattle.monk_hall.specs.{Changes.view_after_join, Records.head, Records.tail};
ghost use Rattle.monk_hall.specs.Tells.{TellsArrive, TellsTicketLook, TellsSeatLook, TellsPeek, TellsFloorOut};
ghost use Rattle.monk_hall.specs.Tells.{TellsFloorIn, held_history, TellsDrop, TellsCompare};

use crate::boxed_floor::BoxedFloor;
use crate::record::View;
use atomic_table::{Join, Play, Split};
use monk_kinds::Kind;
use monk_object::Guarded;

/// Step 1: an idle seat draws a ticket.
pub(crate) struct ArriveStep;

impl<K: Kind, T: Guarded> Play<Option<BoxedFloor<K, T>>, View> for ArriveStep {
    ghost then = { λ step me found new. TellsArrive me found new };
}

/// Step 2: a seat looks at the place of its ticket.
pub(crate) struct TicketLookStep;

impl<K: Kind, T: Guarded> Play<Option<BoxedFloor<K, T>>, View> for TicketLookStep {
    ghost then = { λ step me found new. TellsTicketLook me found new };
}

/// Step 3: a seat that is parked inside looks at its own place.
pub(crate) struct SeatLookStep;

impl<K: Kind, T: Guarded> Play<Option<BoxedFloor<K, T>>, View> for SeatLookStep {
    ghost then = { λ step me found new. TellsSeatLook me found new };
}

/// Step 4: the active seat looks whether somebody waits for entry.
pub(crate) struct PeekStep;

impl<K: Kind, T: Guarded> Play<Option<BoxedFloor<K, T>>, View> for PeekStep {
    ghost then = { λ step me found new. TellsPeek me found new };
}

/// Step 5, out: the floor comes to the seat that is due.
pub(crate) struct FloorOutStep;

impl<K: Kind, T: Guarded> Play<Option<BoxedFloor<K, T>>, View> for FloorOutStep {
    ghost then = { λ step me found new. TellsFloorOut K.rules T.meaning me found new };
}

/// Step 5, in: the active seat takes the floor home.
pub(crate) struct FloorInStep;

impl<K: Kind, T: Guarded> Play<Option<BoxedFloor<K, T>>, View> for FloorInStep {
    ghost then = { λ step me found new. TellsFloorIn (held_history me.1) me found new };
}

/// Step 6: a seat that chose entry takes itself off the ticket word.
pub(crate) struct DropStep;

impl<K: Kind, T: Guarded> Play<Option<BoxedFloor<K, T>>, View> for DropStep {
    ghost then = { λ step me found new. TellsDrop me found new };
}

/// Each seat gets its record, out of the view that has them all.
pub(crate) struct Deal;

impl Split<View> for Deal {
    ghost left = { tail };

    ghost right = { head };
}

/// Two idle seats come into one view.
pub(crate) struct Meet;

impl Join<View> for Meet {
    ghost both = { view_after_join };

    ghost spent = { [] };
}

/// In one view they share what they have seen.
pub(crate) struct CompareStep;

impl<K: Kind, T: Guarded> Play<Option<BoxedFloor<K, T>>, View> for CompareStep {
    ghost then = { λ step me found new. TellsCompare K.rules T.meaning me found new };
}

/// Then they part.
pub(crate) struct Part;

impl Split<View> for Part {
    ghost left = { head };

    ghost right = { tail };
}

/// A look that shows what can't be, by a seat that would have two active records.
pub(crate) struct NeverStep;

impl<K: Kind, T: Guarded> Play<Option<BoxedFloor<K, T>>, View> for NeverStep {
    ghost then = { λ step me found new. ⊥ };
}
