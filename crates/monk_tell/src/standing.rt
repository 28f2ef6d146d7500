//! The state of a monitor: whose turn it is, and who is where.

ghost use Rattle.std.specs.Prelude.{◌≡◌, ◌<◌, [], All, IfOk};
ghost use Rattle.monk_audit.specs.Replay.{replay_situation};
ghost use Rattle.monk_tell.specs.Told.{inside_below, shown_standing, standing_of};

use crate::lists::{NumberList, SeatList};
use crate::queues::QueueLists;
use monk_audit::Replay;
use monk_history::{Header, Turn};
use monk_kinds::Mode;
use monk_object::Listed;
use std::alloc::{AllocError, Global};

/// The state of a monitor of any kind and object.
#[derive(Debug, Drop)]
pub struct Standing {
    /// Whose turn it is.
    pub turn: Turn,
    /// The seats inside, also those that wait there, in rising order.
    pub inside: SeatList,
    /// The state of the object.
    pub data: NumberList,
    /// Who waits inside.
    pub queues: QueueLists,
}

impl Standing {
    /// Returns the state from a replay, with the object in its own state.
    pub(crate) fn of<T: Listed>(
        alloc: Global,
        header: &Header,
        mode: Mode,
        replay: &Replay,
        object: &T,
    ) -> Result<Standing, AllocError>
        requires { All (λ w. w.1 < T.PREDICATES) (replay_situation replay.now (T.state object.now)).untils }
        ensures { IfOk result
            (λ s. standing_of s ≡ shown_standing mode header.now.seats header.now.conds T.meaning
            (replay_situation replay.now (T.state object.now))) }
    {
        Ok(Standing {
            turn: replay.turn(),
            inside: SeatList(inside_seats(alloc, replay, header.seats())?),
            data: NumberList(data_numbers(alloc, object)?),
            queues: QueueLists::of(alloc, mode, header.conds(), replay, object)?,
        })
    }
}

fn is_inside(replay: &Replay, seat: u8) -> bool
    ensures { result ≡ (replay_situation replay.now []).inside seat }
{
    replay.is_inside(seat)
}

/// Returns the seats inside, in rising order.
fn inside_seats(alloc: Global, replay: &Replay, seats: u8) -> Result<Vec<u8>, AllocError>
    ensures { IfOk result (λ v. v.items ≡ inside_below (replay_situation replay.now []).inside seats) }
{
    (0..seats)
        .filter(|seat| is_inside(replay, *seat))
        .collect(alloc)
}

/// Returns the state of the object, as numbers. Time and memory by their number.
///
/// # Errors
///
/// `AllocError` if a request for memory was refused.
pub fn data_numbers<T: Listed>(alloc: Global, object: &T) -> Result<Vec<u64>, AllocError>
    ensures { IfOk result (λ v. v.items ≡ T.state object.now) }
{
    let mut data = Vec::new(alloc);
    while let Some(number) = object.number(data.len()) {
        data.push(number)?;
    }
    Ok(data)
}
