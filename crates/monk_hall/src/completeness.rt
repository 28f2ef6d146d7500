//! Whether a history holds the calls of some seats, and nothing else.
ghost use Rattle.std.specs.Prelude.{◌≡◌, ◌↔◌, length, true};
ghost use Rattle.monk_history.specs.Meaning.Counts.{events_of};
ghost use Rattle.monk_hall.specs.Complete.{AreApart, HaveSeenPart, HoldsOnly};

use crate::pass::Pass;
use monk_history::Event;
use monk_kinds::Kind;
use monk_object::Guarded;

/// Whether a history holds exactly what these passes' seats did, and events of one other seat. The events of each
/// pass's seat in it must be those that the pass knows as its own. Every other event must be of that one seat. Take a
/// closed history and the seat that closed it. If the answer is true, it holds the calls of that seat and of these
/// passes, each once, and nothing else.
///
/// The passes are of different seats, and none is of that one seat. The history begins with what each pass has seen.
/// A caller knows this of passes that have met the pass of the closing seat, and have been idle since.
///
/// Takes no memory and no step. Looks at each pass and at each event.
pub fn complete<K: Kind, T: Guarded>(history: &[Event], seat: u8, passes: &[Pass<K, T>]) -> bool
    requires apart { AreApart seat passes.now }
    requires seen { HaveSeenPart history.now passes.now }
    ensures { (result ≡ true) ↔ HoldsOnly history.now seat passes.now }
{
    let mut known = count_of(history, seat);
    for pass in passes {
        known += pass.made() as usize;
    }
    known == history.len()
}

/// Returns how many events of a history are of this seat.
fn count_of(history: &[Event], seat: u8) -> usize
    ensures { result ≡ length (events_of history.now seat) }
{
    let mut count = 0;
    for event in history {
        if event.seat() == seat {
            count += 1;
        }
    }
    count
}
