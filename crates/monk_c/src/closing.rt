//! How a monitor is closed.
ghost use Rattle.std.specs.Prelude.{◌≡◌};
ghost use Rattle.monk_c.specs.Closing.{IfCloseRefused, IfClosed, refusal_of_seats};

use crate::handle::MonkSeat;
use crate::refusal::Refusal;

/// Returns why the monitor can't be closed through any handle, if it can't.
fn refusal_of_seats(handles: &mut [MonkSeat]) -> Option<Refusal>
    ensures same { handles.new ≡ handles.old }
    ensures refusal { result ≡ refusal_of_seats handles.old }
{
    let mut are_outside = true;
    let mut at = 0;
    while at < handles.len() {
        match handles[at].place() {
            0 => return Some(Refusal::Closed),
            1 => {}
            _ => are_outside = false,
        }
        at += 1;
    }
    if are_outside {
        None
    } else {
        Some(Refusal::NotNow)
    }
}

/// Closes the monitor of these handles through the handle of that number, or refuses it.
pub fn close(handles: &mut [MonkSeat], by: usize) -> i32
    ensures refused { IfCloseRefused handles.old by result handles.new }
    ensures closed { IfClosed handles.old by result handles.new }
{
    if by >= handles.len() {
        return Refusal::Range.number();
    }
    match refusal_of_seats(handles) {
        Some(refusal) => refusal.number(),
        None => handles[by].come(),
    }
}
