//! Who is inside after an event.

ghost use Rattle.std.specs.Prelude.{◌≡◌, ℕ, ◌<◌, false, true, ◌&&◌, ◌||◌, not, length, slice_index_or};
ghost use Rattle.monk_history.specs.Meaning.Events as events;
ghost use Rattle.monk_history.specs.Meaning.Turn as turns;

use monk_history::Event;

/// Notes who is inside after an event.
#[inline(always)]
pub fn mark_inside(inside: &mut [bool], event: Event)
    requires { events.seat_of event < length inside.old }
    ensures { (j : ℕ) → slice_index_or inside.new j
        false ≡ (slice_index_or inside.old j false && not (turns.is_exit_of j event)) || turns.is_enter_of j event }
{
    match event {
        Event::Enter(seat, _) => inside[seat as usize] = true,
        Event::Leave(seat, _) | Event::SignalLeave(seat, ..) => inside[seat as usize] = false,
        Event::Act(..)
        | Event::Wait(..)
        | Event::Signal(..)
        | Event::Until(..)
        | Event::Resume(..)
        | Event::SignalAll(..)
        | Event::SignalWait(..) => {}
    }
}
