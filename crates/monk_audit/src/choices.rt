//! The sixth test: whether an event may choose what it chose. The caller passes in the first ready seat.

ghost use Rattle.std.specs.Prelude.{◌≡◌};
ghost use Rattle.monk_history.specs.Meaning.Choice as choice;
ghost use Rattle.monk_history.specs.Just.{just};
ghost use Rattle.monk_audit.specs.Settled.{permits};

use monk_history::{Event, Next};
use monk_kinds::{Mode, Rules};

/// Whether an event may choose what it chose. `ready` is the first ready seat.
#[inline(always)]
pub fn permits(
    rules: Rules,
    waiters: &[u8],
    signallers: &[u8],
    ready: Option<u8>,
    stays: bool,
    event: Event,
) -> bool
    ensures { result ≡ permits rules
        (record { waiters = waiters.now; signallers = signallers.now; ready = just ready }) stays event }
{
    if stays {
        event.choice() == Some(Next::Stay)
    } else {
        chooses_well(rules, waiters, signallers, ready, event)
    }
}

/// Whether an event that need not stay may choose what it chose. `ready` is the first ready seat.
#[inline(always)]
pub fn chooses_well(
    rules: Rules,
    waiters: &[u8],
    signallers: &[u8],
    ready: Option<u8>,
    event: Event,
) -> bool
    ensures { result ≡ choice.chooses_well rules
        (record { waiters = waiters.now; signallers = signallers.now; ready = just ready }) event }
{
    match event {
        Event::Enter(..) | Event::Act(..) | Event::Resume(..) | Event::SignalAll(..) => true,
        Event::Leave(seat, next)
        | Event::Wait(seat, _, next)
        | Event::SignalLeave(seat, _, next)
        | Event::Until(seat, _, next)
        | Event::SignalWait(seat, _, _, next) => {
            may_choose(rules, waiters, signallers, ready, seat, next)
        }
        Event::Signal(seat, _, next) => may_signal(rules, waiters, signallers, ready, seat, next),
    }
}

/// Whether a release of a seat that must choose may choose `next`. `ready` is the first ready seat.
#[inline(always)]
pub fn may_choose(
    rules: Rules,
    waiters: &[u8],
    signallers: &[u8],
    ready: Option<u8>,
    seat: u8,
    next: Next,
) -> bool
    ensures { result ≡ choice.may_choose rules
        (record { waiters = waiters.now; signallers = signallers.now; ready = just ready }) seat next }
{
    match next {
        Next::Stay => false,
        Next::Entry => {
            (waiters.is_empty() && ready.is_none() || rules.waiter == rules.entry)
                && (signallers.is_empty() || rules.signaller == rules.entry)
        }
        Next::Waiter(chosen) => {
            waiters.first() == Some(&chosen)
                && (signallers.is_empty() || rules.signaller <= rules.waiter)
        }
        Next::Signaller(chosen) => {
            signallers.first() == Some(&chosen)
                && (waiters.is_empty() || rules.waiter <= rules.signaller)
                && chosen != seat
        }
        Next::Until(chosen) => rules.mode == Mode::Automatic && ready == Some(chosen),
    }
}

/// Whether a signal of a seat that serves another may choose `next`.
#[inline(always)]
pub fn may_signal(
    rules: Rules,
    waiters: &[u8],
    signallers: &[u8],
    ready: Option<u8>,
    seat: u8,
    next: Next,
) -> bool
    ensures { result ≡ choice.may_signal rules
        (record { waiters = waiters.now; signallers = signallers.now; ready = just ready }) seat next }
{
    match next {
        Next::Stay => signallers.first() == Some(&seat) && rules.waiter <= rules.signaller,
        _ => may_choose(rules, waiters, signallers, ready, seat, next),
    }
}
