//! The monitor behind C exports: a handle of a C program stands for a seat of a hall of any of the ten kinds.
//!
//! A call answers where the seat is then (1 outside, 2 waiting, 3 inside), or a number below 0 that says why it is
//! refused. After a refusal the handle is as it was, and no grant is given. The first reason that applies is
//! answered: -10, the handle has no seat; -3, the kind has no such call; -4, a condition, a flag or bits are out of
//! range; -1, the seat is elsewhere; -2, the seat has too few events left of its budget (`Call::wants`). No call
//! waits or wakes. A release sets `granted` to the word that it granted, 1 or more, and C wakes the thread whose seat
//! waits there (`monk_k_word`). It sets 0 if it let nobody in, or was refused.
#![tactic(auto)]

ghost use Rattle.std.specs.Prelude.{◌≡◌};
ghost use Rattle.monk_c.specs.declared.any_seat.AnySeat.TheVariants as any;
ghost use Rattle.monk_c.specs.{Coming.IfComesAt, Looking.IsCountOf, Making.IsMade, Taken.wish_of, Texts.IsPut};
ghost use Rattle.monk_c.specs.{Texts.IsTold, SeatQuestions.IsLeft, SeatQuestions.place_at, SeatQuestions.word_at};
ghost use Rattle.monk_c.specs.Handles.{IfRefusedAt, IfTakenAt, IfUntoldAt, booked};
ghost use Rattle.monk_c.specs.Closing.{IfCloseRefused, IfClosed};
ghost use Rattle.monk_kinds.specs.declared.mode.Pick.TheVariants as pick;

mod any_deal;
mod any_seat;
mod call;
mod closing;
mod crossing;
mod deal;
mod handle;
mod held;
mod looking;
mod making;
mod modes;
mod no_gaps;
mod numbers;
mod refusal;
mod reply;
mod room;
mod seat;
mod taking;
mod token;
mod told;

use crate::any_seat::AnySeat;
use crate::call::Call;
use crate::closing::close;
use crate::handle::MonkSeat;
use crate::making::make;
use crate::refusal::Refusal;
use monk_kinds::Pick;
use std::alloc::Global;
use std::mem::size_of;

/// Returns a wish from C's number: 0 for entry, 2 for a signaller, and any other for a waiter.
fn wished(wish: u8) -> Pick
    ensures { result ≡ wish_of wish }
{
    match wish {
        0 => Pick::Entry,
        2 => Pick::Signaller,
        _ => Pick::Waiter,
    }
}

/// How many bytes a seat, or none, takes.
const SEAT_BYTES: usize = size_of::<AnySeat>();

/// Returns how many bytes the memory of a handle has. If all of them are 0, there is no seat.
#[unsafe(no_mangle)]
pub extern "C" fn monk_k_seat_size() -> usize
    ensures { result ≡ SEAT_BYTES }
{
    size_of::<AnySeat>()
}

/// Makes a monitor of a kind, with a seat for each handle, and gives up what the handles had. The kinds are numbered
/// as in `KindName::ALL`. With no flags it has one that C can't set. Returns 0; or -4 if a number is out of range (1
/// to 32 handles, at most 8 conditions and 32 flags, 2 to 2^20 events for each seat), or -5 if memory was refused.
/// Then nothing has changed.
///
/// It takes memory for all events of all seats at once, and no later call keeps any.
#[unsafe(no_mangle)]
pub extern "C" fn monk_k_make(
    alloc: Global,
    kind: u8,
    conds: u8,
    flags: u8,
    budget: u32,
    seats: &mut [MonkSeat],
) -> i32
    ensures { IsMade kind conds flags budget seats.old result seats.new }
{
    match make(alloc, kind, conds, flags, budget, seats) {
        Ok(()) => 0,
        Err(refusal) => refusal.number(),
    }
}

/// The seat comes to the monitor.
#[unsafe(no_mangle)]
pub extern "C" fn monk_k_arrive(seat: &mut MonkSeat) -> i32
    ensures same { seat.new ≡ record seat.old { has = seat.new.has } }
    ensures refused { IfRefusedAt Call.Arrive seat.old.has result seat.new.has }
    ensures taken { IfTakenAt Call.Arrive pick.Waiter seat.old.has result 0 seat.new.has }
{
    seat.ask(Call::Arrive, Pick::Waiter).code
}

/// The seat looks whether it may come in.
#[unsafe(no_mangle)]
pub extern "C" fn monk_k_poll(seat: &mut MonkSeat) -> i32
    ensures same { seat.new ≡ record seat.old { has = seat.new.has } }
    ensures refused { IfRefusedAt Call.Poll seat.old.has result seat.new.has }
    ensures taken { IfTakenAt Call.Poll pick.Waiter seat.old.has result 0 seat.new.has }
{
    seat.ask(Call::Poll, Pick::Waiter).code
}

/// The seat comes to the monitor, and goes in if it may.
#[unsafe(no_mangle)]
pub extern "C" fn monk_k_enter(seat: &mut MonkSeat) -> i32
    ensures same { seat.new ≡ record seat.old { has = seat.new.has } }
    ensures refused { IfRefusedAt Call.Arrive seat.old.has result seat.new.has }
    ensures come { IfComesAt seat.old.has result seat.new.has }
{
    seat.come()
}

/// The seat leaves the monitor.
#[unsafe(no_mangle)]
pub extern "C" fn monk_k_leave(seat: &mut MonkSeat, wish: u8, granted: &mut usize) -> i32
    ensures same { seat.new ≡ record seat.old { has = seat.new.has } }
    ensures refused { IfRefusedAt Call.Leave seat.old.has result seat.new.has }
    ensures untold { IfUntoldAt Call.Leave seat.old.has granted.new }
    ensures taken { IfTakenAt Call.Leave (wish_of wish) seat.old.has result granted.new seat.new.has }
{
    let reply = seat.go(wished(wish));
    *granted = reply.granted;
    reply.code
}

/// The seat waits on a condition.
#[unsafe(no_mangle)]
pub extern "C" fn monk_k_start_wait(
    seat: &mut MonkSeat,
    condition: u8,
    wish: u8,
    granted: &mut usize,
) -> i32
    ensures same { seat.new ≡ record seat.old { has = seat.new.has } }
    ensures refused { IfRefusedAt (Call.Wait condition) seat.old.has result seat.new.has }
    ensures untold { IfUntoldAt (Call.Wait condition) seat.old.has granted.new }
    ensures taken { IfTakenAt (Call.Wait condition) (wish_of wish) seat.old.has result granted.new seat.new.has }
{
    let reply = seat.ask(Call::Wait(condition), wished(wish));
    *granted = reply.granted;
    reply.code
}

/// The seat signals a condition.
#[unsafe(no_mangle)]
pub extern "C" fn monk_k_start_signal(
    seat: &mut MonkSeat,
    condition: u8,
    wish: u8,
    granted: &mut usize,
) -> i32
    ensures same { seat.new ≡ record seat.old { has = seat.new.has } }
    ensures refused { IfRefusedAt (Call.Signal condition) seat.old.has result seat.new.has }
    ensures untold { IfUntoldAt (Call.Signal condition) seat.old.has granted.new }
    ensures taken { IfTakenAt (Call.Signal condition) (wish_of wish) seat.old.has result granted.new seat.new.has }
{
    let reply = seat.ask(Call::Signal(condition), wished(wish));
    *granted = reply.granted;
    reply.code
}

/// The seat signals a condition and leaves.
#[unsafe(no_mangle)]
pub extern "C" fn monk_k_signal_leave(
    seat: &mut MonkSeat,
    condition: u8,
    wish: u8,
    granted: &mut usize,
) -> i32
    ensures same { seat.new ≡ record seat.old { has = seat.new.has } }
    ensures refused { IfRefusedAt (Call.SignalLeave condition) seat.old.has result seat.new.has }
    ensures untold { IfUntoldAt (Call.SignalLeave condition) seat.old.has granted.new }
    ensures taken { IfTakenAt (Call.SignalLeave condition) (wish_of wish) seat.old.has result granted.new seat.new.has }
{
    let reply = seat.ask(Call::SignalLeave(condition), wished(wish));
    *granted = reply.granted;
    reply.code
}

/// The seat sets the flags.
#[unsafe(no_mangle)]
pub extern "C" fn monk_k_set_flags(seat: &mut MonkSeat, bits: u32) -> i32
    ensures same { seat.new ≡ record seat.old { has = seat.new.has } }
    ensures refused { IfRefusedAt (Call.SetFlags bits) seat.old.has result seat.new.has }
    ensures taken { IfTakenAt (Call.SetFlags bits) pick.Waiter seat.old.has result 0 seat.new.has }
{
    seat.ask(Call::SetFlags(bits), Pick::Waiter).code
}

/// The seat waits until a flag is set.
#[unsafe(no_mangle)]
pub extern "C" fn monk_k_start_wait_until(
    seat: &mut MonkSeat,
    flag: u8,
    wish: u8,
    granted: &mut usize,
) -> i32
    ensures same { seat.new ≡ record seat.old { has = seat.new.has } }
    ensures refused { IfRefusedAt (Call.WaitUntil flag) seat.old.has result seat.new.has }
    ensures untold { IfUntoldAt (Call.WaitUntil flag) seat.old.has granted.new }
    ensures taken { IfTakenAt (Call.WaitUntil flag) (wish_of wish) seat.old.has result granted.new seat.new.has }
{
    let reply = seat.ask(Call::WaitUntil(flag), wished(wish));
    *granted = reply.granted;
    reply.code
}

/// The seat signals a condition to all who wait there.
#[unsafe(no_mangle)]
pub extern "C" fn monk_k_broadcast(seat: &mut MonkSeat, condition: u8) -> i32
    ensures same { seat.new ≡ record seat.old { has = seat.new.has } }
    ensures refused { IfRefusedAt (Call.Broadcast condition) seat.old.has result seat.new.has }
    ensures taken { IfTakenAt (Call.Broadcast condition) pick.Waiter seat.old.has result 0 seat.new.has }
{
    seat.broadcast(condition).code
}

/// The seat signals the first condition and waits on the second.
#[unsafe(no_mangle)]
pub extern "C" fn monk_k_start_signal_wait(
    seat: &mut MonkSeat,
    condition: u8,
    wait_condition: u8,
    wish: u8,
    granted: &mut usize,
) -> i32
    ensures same { seat.new ≡ record seat.old { has = seat.new.has } }
    ensures refused { IfRefusedAt (Call.SignalWait condition wait_condition) seat.old.has result seat.new.has }
    ensures untold { IfUntoldAt (Call.SignalWait condition wait_condition) seat.old.has granted.new }
    ensures taken { IfTakenAt (Call.SignalWait condition wait_condition)
        (wish_of wish) seat.old.has result granted.new seat.new.has }
{
    let reply = seat.signal_wait(condition, wait_condition, wished(wish));
    *granted = reply.granted;
    reply.code
}

/// Returns where the seat is: 1 outside, 2 waiting, 3 inside, or 0 if the handle has no seat.
#[unsafe(no_mangle)]
pub extern "C" fn monk_k_place(seat: &mut MonkSeat) -> i32
    ensures same { seat.new ≡ seat.old }
    ensures place { result ≡ place_at (booked seat.old.has) }
{
    seat.place()
}

/// Returns how many events the seat has left of its budget, or 0 if the handle has no seat.
#[unsafe(no_mangle)]
pub extern "C" fn monk_k_left(seat: &mut MonkSeat) -> u32
    ensures same { seat.new ≡ seat.old }
    ensures left { IsLeft (booked seat.old.has) result }
{
    seat.left()
}

/// Returns the word where the grant of a waiting seat will come, or 0 for any other seat.
#[unsafe(no_mangle)]
pub extern "C" fn monk_k_word(seat: &mut MonkSeat) -> usize
    ensures same { seat.new ≡ seat.old }
    ensures word { result ≡ word_at (booked seat.old.has) }
{
    seat.word()
}

/// Returns how many wait on a condition, as the seat sees it from inside; or -10, -3, -4 or -1, as for a wait there.
#[unsafe(no_mangle)]
pub extern "C" fn monk_k_waiting(seat: &mut MonkSeat, condition: u8) -> i64
    ensures same { seat.new ≡ seat.old }
    ensures count { IsCountOf (booked seat.old.has) condition result }
{
    seat.waiting(condition)
}

/// Writes the text of the history up to now into `out`, if there is room for it. Returns its length; or -10 if the
/// handle has no seat, -1 if the seat isn't inside, -5 if memory for the text was refused. One pass over the history.
#[unsafe(no_mangle)]
pub extern "C" fn monk_k_history(alloc: Global, seat: &mut MonkSeat, out: &mut [u8]) -> i64
    ensures same { seat.new ≡ seat.old }
    ensures told { IsTold (booked seat.old.has) result out.old out.new }
{
    match seat.text(alloc) {
        Ok(text) => tell(&text, out),
        Err(refusal) => i64::from(refusal.number()),
    }
}

/// Writes the text if there is room for it, and returns its length.
fn tell(text: &[u8], out: &mut [u8]) -> i64
    ensures { IsPut text.now result out.old out.new }
{
    let Ok(length) = i64::try_from(text.len()) else {
        return i64::from(Refusal::Memory.number());
    };
    if text.len() <= out.len() {
        out[..text.len()].copy_from_slice(text);
    }
    length
}

/// Closes the monitor of these handles: the seat of handle `by` comes to it, polls and stays there. Returns the place
/// of that seat, which is inside if the monitor was free.
///
/// It is refused for the first of these reasons that applies: -4, there is no handle `by`; -10, a
/// handle has no seat; -1, a seat isn't outside; -2, the seat of `by` has too few events left to
/// arrive. Then nothing has changed. It looks once at each handle.
#[unsafe(no_mangle)]
pub extern "C" fn monk_k_close(seats: &mut [MonkSeat], by: usize) -> i32
    ensures refused { IfCloseRefused seats.old by result seats.new }
    ensures closed { IfClosed seats.old by result seats.new }
{
    close(seats, by)
}

/// Gives a seat up; then the handle has none. A seat that is inside leaves, and nobody is told whom that let in. A
/// seat that waits keeps its place, and it keeps the monitor for good once its turn comes.
#[unsafe(no_mangle)]
pub extern "C" fn monk_k_drop(seat: &mut MonkSeat)
    ensures { seat.new ≡ record seat.old { has = any.Empty } }
{
    seat.put(AnySeat::Empty);
}
