//! What a C program asks of a seat.
ghost use Rattle.std.specs.Prelude.{◌≡◌, ◌≤◌};
ghost use Rattle.monk_c.specs.Refusal.{has_call, is_within, wants};

use crate::modes::{has_conditions, has_signaller_queue, is_non_blocking, returns_at_once};
use monk_kinds::Mode;

/// A call of a seat. The numbers are a condition, a flag, or the bits of the flags.
#[derive(Clone, Copy)]
pub enum Call {
    /// It comes to the monitor.
    Arrive,
    /// It looks whether it may come in.
    Poll,
    /// It leaves.
    Leave,
    /// It waits on a condition.
    Wait(u8),
    /// It signals a condition.
    Signal(u8),
    /// It signals a condition to all who wait there.
    Broadcast(u8),
    /// It signals a condition and leaves.
    SignalLeave(u8),
    /// It signals the first condition and waits on the second.
    SignalWait(u8, u8),
    /// It sets the flags.
    SetFlags(u32),
    /// It waits until a flag is set.
    WaitUntil(u8),
}

impl Call {
    /// Whether kinds of this mode have the call.
    #[inline(always)]
    pub fn is_of(self, mode: Mode) -> bool
        ensures { result ≡ has_call mode self }
    {
        match self {
            Call::Arrive | Call::Poll | Call::Leave | Call::SetFlags(_) => true,
            Call::Wait(_) => has_conditions(mode),
            Call::Signal(_) => has_signaller_queue(mode),
            Call::Broadcast(_) => is_non_blocking(mode),
            Call::SignalLeave(_) | Call::SignalWait(_, _) => returns_at_once(mode),
            Call::WaitUntil(_) => !has_conditions(mode),
        }
    }

    /// Whether its numbers are in range for this many conditions and flags.
    #[inline(always)]
    pub fn is_within(self, conds: u8, flags: u8) -> bool
        requires { flags ≤ 32 }
        ensures { result ≡ is_within conds flags self }
    {
        match self {
            Call::Arrive | Call::Poll | Call::Leave => true,
            Call::Wait(cond) | Call::Signal(cond) => cond < conds,
            Call::Broadcast(cond) | Call::SignalLeave(cond) => cond < conds,
            Call::SignalWait(cond, wait_cond) => cond < conds && wait_cond < conds,
            Call::SetFlags(bits) => flags > 0 && u64::from(bits) < 1u64 << flags,
            Call::WaitUntil(flag) => flag < flags,
        }
    }

    /// Returns how many events must be left of the seat's budget.
    #[inline(always)]
    pub fn wants(self) -> u32
        ensures { result ≡ wants self }
    {
        match self {
            Call::Poll | Call::Leave | Call::SignalLeave(_) => 0,
            Call::Arrive | Call::Broadcast(_) | Call::SetFlags(_) => 2,
            Call::Wait(_) | Call::Signal(_) | Call::SignalWait(_, _) | Call::WaitUntil(_) => 3,
        }
    }
}
