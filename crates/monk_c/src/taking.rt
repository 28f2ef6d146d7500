//! What a seat does if its call is not refused.
ghost use Rattle.std.specs.Prelude.{◌≡◌};
ghost use Rattle.std.specs.Arc.{arc_value};
ghost use Rattle.monk_kinds.specs.declared.mode.Pick.TheVariants as pick;
ghost use Rattle.monk_c.specs.{Answers.place_number, Coming.Comes, Refusal.IsReady, Stands.IsAtHome, Taken.Answers};
ghost use Rattle.monk_c.specs.Tokens.{at_after, at_of};

use crate::call::Call;
use crate::reply::Reply;
use crate::seat::{Seat, Shared};
use crate::token::SeatToken;
use crate::told::told;
use monk_hall::After;
use monk_kinds::{ImmediateReturn, Kind, NonBlocking, Pick};
use monk_object::{Flags, Op};

/// Returns a seat that is there now, and the reply to C.
#[inline(always)]
fn stands<K: Kind>(room: Shared<K>, token: SeatToken<K>, granted: usize) -> (Seat<K>, Reply)
    requires { IsAtHome (arc_value room) (at_of token) }
    ensures seat { result.0 ≡ record { room = arc_value room; at = at_of token } }
    ensures code { result.1.code ≡ place_number (at_of token) }
    ensures told { result.1.granted ≡ granted }
{
    let code = token.place();
    (Seat::new(room, token), Reply { code, granted })
}

/// Returns the token after a call by which the seat may stay inside.
fn token_after<K: Kind>(after: After<K, Flags>) -> SeatToken<K>
    ensures { at_of result ≡ at_after after }
{
    match after {
        After::Active(active) => SeatToken::Inside(active),
        After::Parked(parked) => SeatToken::Waiting(parked),
    }
}

impl<K: Kind> Seat<K> {
    /// Comes to the monitor.
    #[inline(always)]
    pub(crate) fn arrive(self) -> (Seat<K>, Reply)
        requires { IsReady K.rules.mode self Call.Arrive }
        ensures { Answers K.rules Call.Arrive pick.Waiter self result.1.code result.1.granted result.0 }
    {
        let (room, token) = self.into_parts();
        match token {
            SeatToken::Outside(pass) => {
                let parked = pass.arrive(&room.hall);
                stands(room, SeatToken::Waiting(parked), 0)
            }
            other => stands(room, other, 0),
        }
    }

    /// Looks whether it may come in.
    #[inline(always)]
    pub(crate) fn poll(self) -> (Seat<K>, Reply)
        requires { IsReady K.rules.mode self Call.Poll }
        ensures { Answers K.rules Call.Poll pick.Waiter self result.1.code result.1.granted result.0 }
    {
        let (room, token) = self.into_parts();
        match token {
            SeatToken::Waiting(parked) => match parked.poll(&room.hall) {
                Ok(active) => stands(room, SeatToken::Inside(active), 0),
                Err(parked) => stands(room, SeatToken::Waiting(parked), 0),
            },
            other => stands(room, other, 0),
        }
    }

    /// Comes to the monitor, and goes in if it may. Returns the number for C of where it is then.
    #[inline(always)]
    pub(crate) fn arrive_and_poll(self) -> (Seat<K>, i32)
        requires { IsReady K.rules.mode self Call.Arrive }
        ensures { Comes K.rules self result.1 result.0 }
    {
        let (seat, _) = self.arrive();
        let (seat, polled) = seat.poll();
        (seat, polled.code)
    }

    /// Leaves the monitor.
    #[inline(always)]
    pub(crate) fn leave(self, wish: Pick) -> (Seat<K>, Reply)
        requires { IsReady K.rules.mode self Call.Leave }
        ensures { Answers K.rules Call.Leave wish self result.1.code result.1.granted result.0 }
    {
        let (room, token) = self.into_parts();
        match token {
            SeatToken::Inside(active) => {
                let (pass, granted) = active.leave_quietly(&room.hall, wish);
                stands(room, SeatToken::Outside(pass), told(granted))
            }
            other => stands(room, other, 0),
        }
    }

    /// Waits on a condition.
    pub(crate) fn wait(self, cond: u8, wish: Pick) -> (Seat<K>, Reply)
        requires { IsReady K.rules.mode self (Call.Wait cond) }
        ensures { Answers K.rules (Call.Wait cond) wish self result.1.code result.1.granted result.0 }
    {
        let (room, token) = self.into_parts();
        match token {
            SeatToken::Inside(active) => {
                let (parked, granted) = active.plain_wait_quietly(&room.hall, cond, wish);
                stands(room, SeatToken::Waiting(parked), told(granted))
            }
            other => stands(room, other, 0),
        }
    }

    /// Signals a condition.
    pub(crate) fn signal(self, cond: u8, wish: Pick) -> (Seat<K>, Reply)
        requires { IsReady K.rules.mode self (Call.Signal cond) }
        ensures { Answers K.rules (Call.Signal cond) wish self result.1.code result.1.granted result.0 }
    {
        let (room, token) = self.into_parts();
        match token {
            SeatToken::Inside(active) => {
                let (after, granted) = active.plain_signal_quietly(&room.hall, cond, wish);
                stands(room, token_after(after), told(granted))
            }
            other => stands(room, other, 0),
        }
    }

    /// Signals a condition and leaves.
    pub(crate) fn signal_leave(self, cond: u8, wish: Pick) -> (Seat<K>, Reply)
        requires { IsReady K.rules.mode self (Call.SignalLeave cond) }
        ensures { Answers K.rules (Call.SignalLeave cond) wish self result.1.code result.1.granted result.0 }
    {
        let (room, token) = self.into_parts();
        match token {
            SeatToken::Inside(active) => {
                let (pass, granted) = active.plain_signal_leave_quietly(&room.hall, cond, wish);
                stands(room, SeatToken::Outside(pass), told(granted))
            }
            other => stands(room, other, 0),
        }
    }

    /// Sets the flags.
    pub(crate) fn set_flags(self, bits: u32) -> (Seat<K>, Reply)
        requires { IsReady K.rules.mode self (Call.SetFlags bits) }
        ensures { Answers K.rules (Call.SetFlags bits) pick.Waiter self result.1.code result.1.granted result.0 }
    {
        let (room, token) = self.into_parts();
        match token {
            SeatToken::Inside(mut active) => {
                active.act(Op {
                    code: Flags::SET,
                    arg: bits,
                });
                stands(room, SeatToken::Inside(active), 0)
            }
            other => stands(room, other, 0),
        }
    }

    /// Waits until a flag is set.
    pub(crate) fn wait_until(self, flag: u8, wish: Pick) -> (Seat<K>, Reply)
        requires { IsReady K.rules.mode self (Call.WaitUntil flag) }
        ensures { Answers K.rules (Call.WaitUntil flag) wish self result.1.code result.1.granted result.0 }
    {
        let (room, token) = self.into_parts();
        match token {
            SeatToken::Inside(active) => {
                let (after, granted) = active.plain_until_quietly(&room.hall, flag, wish);
                stands(room, token_after(after), told(granted))
            }
            other => stands(room, other, 0),
        }
    }
}

impl<K: NonBlocking> Seat<K> {
    /// Signals a condition to all who wait there.
    pub(crate) fn signal_all(self, cond: u8) -> (Seat<K>, Reply)
        requires { IsReady K.rules.mode self (Call.Broadcast cond) }
        ensures { Answers K.rules (Call.Broadcast cond) pick.Waiter self result.1.code result.1.granted result.0 }
    {
        let (room, token) = self.into_parts();
        match token {
            SeatToken::Inside(mut active) => {
                active.signal_all(cond);
                stands(room, SeatToken::Inside(active), 0)
            }
            other => stands(room, other, 0),
        }
    }
}

impl<K: ImmediateReturn> Seat<K> {
    /// Signals the first condition and waits on the second.
    pub(crate) fn signal_and_wait(self, cond: u8, wait_cond: u8, wish: Pick) -> (Seat<K>, Reply)
        requires { IsReady K.rules.mode self (Call.SignalWait cond wait_cond) }
        ensures { Answers K.rules (Call.SignalWait cond wait_cond) wish self result.1.code result.1.granted result.0 }
    {
        let (room, token) = self.into_parts();
        match token {
            SeatToken::Inside(active) => {
                let (parked, granted) = active.signal_wait_quietly(
                    &room.hall, cond, wait_cond, wish,
                );
                stands(room, SeatToken::Waiting(parked), told(granted))
            }
            other => stands(room, other, 0),
        }
    }
}
