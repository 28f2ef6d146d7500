//! The reason if a line can't follow a release, or a signal that lacks its second line.

ghost use Rattle.std.specs.Prelude.{◌≡◌, ◌||◌, ◌++◌, [], true, Some, IfOk, is_some, if◌then◌else◌};
ghost use Rattle.monk_history.specs.{Just.just, declared.event.Next.Next};
ghost use Rattle.monk_history.specs.Meaning.{Choice.queues_at, Reasons.fits_object, Release.MayCallIn, Turn.is_exit_of};
ghost use Rattle.monk_history.specs.Meaning.Events.{awaited_predicate, next_of, returns_at_once, steps_back, waits_on};
ghost use Rattle.monk_audit.specs.Replay.{IsReplayOf, has, replay_situation, stands_in};
ghost use Rattle.monk_completion.specs.Blame as blames;
ghost use Rattle.monk_completion.specs.{Blame.early_blame, Stand.monitor_in};

use crate::blame::Blame;
use crate::fronts::{Fronts, first_served, stepping_back};
use crate::setting::MonitorSetting;
use monk_audit::{Replay, replies};
use monk_history::{Event, From3, Next, Via};
use monk_kinds::Mode;
use monk_logs::LogLine;
use monk_object::Guarded;
use std::alloc::AllocError;

/// Returns the line's event, with any choice and any way in.
fn line_event(mode: Mode, line: LogLine) -> Event
    ensures { result ≡ blames.line_event mode line }
{
    match line {
        LogLine::Enter(seat) => Event::Enter(seat, Via::Handed),
        LogLine::Resume(seat) | LogLine::Lapse(seat) => Event::Resume(seat, From3::Waiter),
        LogLine::Leave(seat) => Event::Leave(seat, Next::Stay),
        LogLine::Wait(seat, cond) => Event::Wait(seat, cond, Next::Stay),
        LogLine::Signal(seat, cond) => signal_event(mode, seat, cond),
        LogLine::Broadcast(seat, cond) => Event::SignalAll(seat, cond),
        LogLine::Until(seat, pred) => Event::Until(seat, pred, Next::Stay),
        LogLine::Act(seat, op, reply) => Event::Act(seat, op, reply),
    }
}

/// Returns the signal that the mode has.
fn signal_event(mode: Mode, seat: u8, cond: u8) -> Event
    ensures { result ≡ (if returns_at_once mode then Event.SignalLeave seat cond Next.Stay
        else Event.Signal seat cond Next.Stay) }
{
    if mode == Mode::ImmediateReturn {
        Event::SignalLeave(seat, cond, Next::Stay)
    } else {
        Event::Signal(seat, cond, Next::Stay)
    }
}

/// Returns the first test of range or call that the event fails.
fn early_blame<T: Guarded>(
    setting: MonitorSetting,
    replay: &Replay,
    object: &T,
    event: Event,
) -> Option<Blame>
    requires { IsReplayOf setting.seats setting.conds T.PREDICATES replay.now }
    ensures { result ≡ early_blame (monitor_in setting T.meaning) event }
{
    match replay.call_reason(setting.rules, object, setting.conds, event) {
        Some(reason) => Blame::of_early_reason(reason),
        None => None,
    }
}

/// Returns the reason against a line after a signal that lacks its second line.
pub(crate) fn half_blame<T: Guarded>(
    setting: MonitorSetting,
    replay: &Replay,
    object: &T,
    line: LogLine,
) -> Blame
    requires { IsReplayOf setting.seats setting.conds T.PREDICATES replay.now }
    ensures { result ≡ blames.half_blame (monitor_in setting T.meaning) line }
{
    let event = line_event(setting.rules.mode, line);
    match early_blame(setting, replay, object, event) {
        Some(Blame::Range) => Blame::Range,
        _ => Blame::Call,
    }
}

/// Whether the caller waits by the event.
fn waits(event: Event) -> bool
    ensures { result ≡ (is_some (waits_on event) || is_some (awaited_predicate event)) }
{
    matches!(
        event,
        Event::Wait(..) | Event::SignalWait(..) | Event::Until(..)
    )
}

/// Whether the event lets its caller go on at once, though it serves somebody.
fn steps_back(event: Event) -> bool
    ensures { result ≡ is_some (steps_back event) }
{
    matches!(event, Event::Signal(..))
}

/// Whether the seat may be called back after a release. `stays` says whether the release must stay.
fn may_be_called_back(stays: bool, inside: bool, event: Event, seat: u8) -> bool
    ensures { result ≡ blames.may_be_called_back stays inside event seat }
{
    if stays {
        false
    } else if seat == event.seat() {
        waits(event)
    } else {
        inside
    }
}

/// Whether the seat may still be active.
fn may_be_active(stays: bool, event: Event, seat: u8) -> bool
    ensures { result ≡ blames.may_be_active stays event seat }
{
    seat == event.seat() && (stays || steps_back(event))
}

/// Whether the seat is inside.
fn is_inside(replay: &Replay, seat: u8) -> bool
    ensures { result ≡ (replay_situation replay.now []).inside seat }
{
    replay.is_inside(seat)
}

/// Whether it may be the turn of the line's seat.
fn may_be_its_turn(stays: bool, replay: &Replay, event: Event, line: LogLine) -> bool
    ensures { result ≡ blames.may_be_its_turn stays (replay_situation replay.now []).inside event line }
{
    match line {
        LogLine::Enter(_) => !stays,
        LogLine::Resume(seat) | LogLine::Lapse(seat) => {
            may_be_called_back(stays, is_inside(replay, seat), event, seat)
        }
        LogLine::Leave(seat)
        | LogLine::Wait(seat, _)
        | LogLine::Signal(seat, _)
        | LogLine::Broadcast(seat, _)
        | LogLine::Until(seat, _)
        | LogLine::Act(seat, ..) => may_be_active(stays, event, seat),
    }
}

/// Whether the event takes the seat out.
fn is_exit_of(seat: u8, event: Event) -> bool
    ensures { result ≡ is_exit_of seat event }
{
    match event {
        Event::Leave(caller, _) | Event::SignalLeave(caller, ..) => caller == seat,
        _ => false,
    }
}

/// Whether the line doesn't bring in a seat that is inside.
fn is_in_place(replay: &Replay, event: Event, line: LogLine) -> bool
    ensures { result ≡ blames.is_line_in_place (replay_situation replay.now []).inside event line }
{
    match line {
        LogLine::Enter(seat) => !(is_inside(replay, seat) && !is_exit_of(seat, event)),
        _ => true,
    }
}

/// Returns the reason against a lapse if each event before it is known. No wait runs out while somebody is active.
pub(crate) fn lapse_blame(seats: u8, seat: u8) -> Blame
    ensures { result ≡ blames.lapse_blame seats seat }
{
    if seat < seats {
        Blame::Turn
    } else {
        Blame::Range
    }
}

/// Whether the seat is in the queue. The queue may have one more seat, `last`, at its end.
fn is_among(queue: &[u8], last: Option<u8>, seat: u8) -> bool
    ensures { result ≡ has seat (queue.now ++ just last) }
{
    queue.contains(&seat) || last == Some(seat)
}

/// Whether the seat is in one of the queues from which the release chooses.
fn stands_in<T: Guarded>(
    setting: MonitorSetting,
    replay: &Replay,
    object: &T,
    event: Event,
    seat: u8,
) -> Result<bool, AllocError>
    requires sound { IsReplayOf setting.seats setting.conds T.PREDICATES replay.now }
    requires release { next_of event ≡ Some Next.Stay }
    ensures { IfOk result (λ b. b
        ≡ stands_in (queues_at T.meaning (replay_situation replay.now (T.state object.now)) event) seat) }
{
    let waiters = replay.waiters(setting.alloc)?;
    if is_among(&waiters, first_served(replay, event), seat) {
        return Ok(true);
    }
    let signallers = replay.signallers(setting.alloc)?;
    if is_among(&signallers, stepping_back(replay, event), seat) {
        return Ok(true);
    }
    Ok(replay.is_ready(object, seat))
}

/// Returns the reason if a seat goes on that the release may not have chosen.
fn resume_blame<T: Guarded>(
    setting: MonitorSetting,
    replay: &Replay,
    object: &T,
    event: Event,
    seat: u8,
) -> Result<Blame, AllocError>
    requires sound { IsReplayOf setting.seats setting.conds T.PREDICATES replay.now }
    requires release { next_of event ≡ Some Next.Stay }
    ensures { IfOk result (λ why. why
        ≡ blames.resume_blame (queues_at T.meaning (replay_situation replay.now (T.state object.now)) event) seat) }
{
    if !stands_in(setting, replay, object, event, seat)? {
        Ok(Blame::Unserved)
    } else if !Fronts::at(replay, object, event).has(seat) {
        Ok(Blame::Order)
    } else {
        Ok(Blame::Choice)
    }
}

/// Returns the reason if the caller goes on at once, though it may not have stayed.
#[tactic(auto, using(crate::proofs::FrontLaws::stay_blame_same))]
fn stay_blame<T: Guarded>(
    setting: MonitorSetting,
    replay: &Replay,
    object: &T,
    event: Event,
    seat: u8,
) -> Blame
    requires sound { IsReplayOf setting.seats setting.conds T.PREDICATES replay.now }
    ensures { result ≡ blames.stay_blame setting.rules
        (queues_at T.meaning (replay_situation replay.now (T.state object.now)) event) seat }
{
    Fronts::at(replay, object, event).stay_blame(setting.rules, seat)
}

/// Returns the reason if the release may not have chosen what the line shows.
fn choice_blame<T: Guarded>(
    setting: MonitorSetting,
    replay: &Replay,
    object: &T,
    event: Event,
    line: LogLine,
) -> Result<Blame, AllocError>
    requires sound { IsReplayOf setting.seats setting.conds T.PREDICATES replay.now }
    requires release { next_of event ≡ Some Next.Stay }
    ensures { IfOk result (λ why. why ≡ blames.choice_blame setting.rules
        (queues_at T.meaning (replay_situation replay.now (T.state object.now)) event) line) }
{
    match line {
        LogLine::Enter(_) => Ok(Blame::Choice),
        LogLine::Resume(seat) => resume_blame(setting, replay, object, event, seat),
        LogLine::Lapse(_) => Ok(Blame::Served),
        LogLine::Leave(seat)
        | LogLine::Wait(seat, _)
        | LogLine::Signal(seat, _)
        | LogLine::Broadcast(seat, _)
        | LogLine::Until(seat, _)
        | LogLine::Act(seat, ..) => Ok(stay_blame(setting, replay, object, event, seat)),
    }
}

/// Returns the first reason from the test of the turn on. The object is of no further use.
fn late_blame<T: Guarded>(
    setting: MonitorSetting,
    replay: &Replay,
    object: &mut T,
    event: Event,
    line: LogLine,
) -> Result<Blame, AllocError>
    requires sound { IsReplayOf setting.seats setting.conds T.PREDICATES replay.now }
    requires called { MayCallIn (monitor_in setting T.meaning)
        (replay_situation replay.now (T.state object.old)) event }
    requires release { next_of event ≡ Some Next.Stay }
    requires line { fits_object T.CODES T.PREDICATES (blames.line_event setting.rules.mode line) ≡ true }
    ensures { IfOk result (λ why. why ≡ blames.late_blame (monitor_in setting T.meaning)
        (replay_situation replay.now (T.state object.old)) event line) }
{
    let last = choice_blame(setting, replay, object, event, line)?;
    let stays = replay.must_stay(object, event);
    if !may_be_its_turn(stays, replay, event, line) {
        Ok(Blame::Turn)
    } else if !is_in_place(replay, event, line) {
        Ok(Blame::Place)
    } else if !replies(object, line_event(setting.rules.mode, line)) {
        Ok(Blame::Reply)
    } else {
        Ok(last)
    }
}

/// Returns the reason if a release and the line that shows its choice don't go together. The object
/// is of no further use.
pub(crate) fn release_blame<T: Guarded>(
    setting: MonitorSetting,
    replay: &Replay,
    object: &mut T,
    event: Event,
    line: LogLine,
) -> Result<Blame, AllocError>
    requires sound { IsReplayOf setting.seats setting.conds T.PREDICATES replay.now }
    requires called { MayCallIn (monitor_in setting T.meaning)
        (replay_situation replay.now (T.state object.old)) event }
    requires release { next_of event ≡ Some Next.Stay }
    ensures { IfOk result (λ why. why ≡ blames.release_blame (monitor_in setting T.meaning)
        (replay_situation replay.now (T.state object.old)) event line) }
{
    let told = line_event(setting.rules.mode, line);
    match early_blame(setting, replay, object, told) {
        Some(early) => Ok(early),
        None => late_blame(setting, replay, object, event, line),
    }
}
