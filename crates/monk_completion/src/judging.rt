//! Judges one line of a log, from the state of the monitor after the events that are known.

ghost use Rattle.std.specs.Prelude.{◌≡◌, ◌<◌, ◌==◌, ◌++◌, ◌∷◌, [], All, None, Some, IfOk, OnOk, not};
ghost use Rattle.monk_history.specs.declared.event.Next.{Next};
ghost use Rattle.monk_history.specs.Meaning.{Events.answered_act, Events.next_of, Reasons.reason_in, Release.MayCallIn};
ghost use Rattle.monk_audit.specs.Replay.{IsReplayOf, replay_situation};
ghost use Rattle.monk_completion.specs.Stand as stands;
ghost use Rattle.monk_completion.specs.Told as told;
ghost use Rattle.monk_completion.specs.{Events.line_events, Events.told_events, declared.pending.Pending.Pending};
ghost use Rattle.monk_completion.specs.Stand.{IsHeldOver, monitor_in, stand_or};

use crate::blame::Blame;
use crate::blaming::{half_blame, lapse_blame, release_blame};
use crate::fronts::Fronts;
use crate::pending::Pending;
use crate::setting::MonitorSetting;
use monk_audit::Replay;
use monk_history::{Event, From3, Next, Turn, Via};
use monk_kinds::Mode;
use monk_logs::LogLine;
use monk_object::Guarded;
use std::alloc::AllocError;

/// Returns how a task comes in now. It only matters whether it is the first.
fn via_now(replay: &Replay) -> Via
    ensures { result ≡ stands.via_now (replay_situation replay.now []) }
{
    if replay.begun() {
        Via::Handed
    } else {
        Via::Free
    }
}

/// Returns the queue from which the turn is due.
fn due_from(replay: &Replay) -> From3
    ensures { result ≡ stands.due_from (replay_situation replay.now []).turn }
{
    match replay.turn() {
        Turn::Due(_, queue) => queue,
        Turn::Open => From3::Waiter,
        Turn::Owned(_) => From3::Waiter,
    }
}

/// Adds an event that is fully known, if it is allowed.
fn settle<T: Guarded>(
    setting: MonitorSetting,
    replay: &mut Replay,
    object: &mut T,
    events: &mut Vec<Event>,
    event: Event,
) -> Result<Result<Pending, Blame>, AllocError>
    requires sound { IsReplayOf setting.seats setting.conds T.PREDICATES replay.old }
    ensures judged { IfOk result (λ r. stand_or (replay_situation replay.new (T.state object.new)) r
        ≡ stands.settle (monitor_in setting T.meaning) (replay_situation replay.old (T.state object.old)) event) }
    ensures sound { OnOk result (IsReplayOf setting.seats setting.conds T.PREDICATES replay.new) }
    ensures events { IfOk result (λ r. OnOk r (events.new.items ≡ events.old.items ++ event ∷ [])) }
{
    let refused = replay.carry_out(setting.alloc, setting.rules, object, setting.conds, event)?;
    match refused {
        Some(reason) => Ok(Err(Blame::of_reason(reason))),
        None => {
            events.push(event)?;
            Ok(Ok(Pending::Settled))
        }
    }
}

/// Holds an event over with what is not yet known of it, if its call may be made.
fn hold<T: Guarded>(
    setting: MonitorSetting,
    replay: &Replay,
    object: &T,
    event: Event,
    pending: Pending,
) -> Result<Pending, Blame>
    requires sound { IsReplayOf setting.seats setting.conds T.PREDICATES replay.now }
    ensures { stand_or (replay_situation replay.now (T.state object.now)) result
        ≡ stands.hold_over (monitor_in setting T.meaning) (replay_situation replay.now (T.state object.now)) event
        pending }
{
    match replay.call_reason(setting.rules, object, setting.conds, event) {
        Some(reason) => Err(Blame::of_reason(reason)),
        None => Ok(pending),
    }
}

/// Holds over a release whose choice the next line shows.
fn release<T: Guarded>(
    setting: MonitorSetting,
    replay: &Replay,
    object: &T,
    event: Event,
) -> Result<Pending, Blame>
    requires sound { IsReplayOf setting.seats setting.conds T.PREDICATES replay.now }
    ensures { stand_or (replay_situation replay.now (T.state object.now)) result
        ≡ stands.release_over (monitor_in setting T.meaning) (replay_situation replay.now (T.state object.now)) event }
{
    hold(setting, replay, object, event, Pending::Release(event))
}

/// Judges a signal. Under immediate return the next line shows whether its caller leaves or waits.
fn signal<T: Guarded>(
    setting: MonitorSetting,
    replay: &Replay,
    object: &T,
    seat: u8,
    cond: u8,
) -> Result<Pending, Blame>
    requires sound { IsReplayOf setting.seats setting.conds T.PREDICATES replay.now }
    ensures { stand_or (replay_situation replay.now (T.state object.now)) result
        ≡ stands.signal_over (monitor_in setting T.meaning) (replay_situation replay.now (T.state object.now)) seat
        cond }
{
    if setting.rules.mode == Mode::ImmediateReturn {
        let event = Event::SignalLeave(seat, cond, Next::Stay);
        hold(setting, replay, object, event, Pending::Half(seat, cond))
    } else {
        let event = Event::Signal(seat, cond, Next::Stay);
        release(setting, replay, object, event)
    }
}

/// Judges a line if each event before it is known.
fn line_settled<T: Guarded>(
    setting: MonitorSetting,
    replay: &mut Replay,
    object: &mut T,
    events: &mut Vec<Event>,
    line: LogLine,
) -> Result<Result<Pending, Blame>, AllocError>
    requires sound { IsReplayOf setting.seats setting.conds T.PREDICATES replay.old }
    ensures judged { IfOk result (λ r. stand_or (replay_situation replay.new (T.state object.new)) r
        ≡ stands.line_settled (monitor_in setting T.meaning)
        (replay_situation replay.old (T.state object.old)) line) }
    ensures sound { OnOk result (IsReplayOf setting.seats setting.conds T.PREDICATES replay.new) }
    ensures events { IfOk result (λ r. OnOk r (events.new.items
        ≡ events.old.items ++ line_events (replay_situation replay.old (T.state object.old)) line)) }
{
    match line {
        LogLine::Enter(seat) => {
            let event = Event::Enter(seat, via_now(replay));
            settle(setting, replay, object, events, event)
        }
        LogLine::Resume(seat) => {
            let event = Event::Resume(seat, due_from(replay));
            settle(setting, replay, object, events, event)
        }
        LogLine::Broadcast(seat, cond) => {
            let event = Event::SignalAll(seat, cond);
            settle(setting, replay, object, events, event)
        }
        LogLine::Act(seat, op, reply) => {
            let event = Event::Act(seat, op, reply);
            settle(setting, replay, object, events, event)
        }
        LogLine::Leave(seat) => {
            let event = Event::Leave(seat, Next::Stay);
            Ok(release(setting, replay, object, event))
        }
        LogLine::Wait(seat, cond) => {
            let event = Event::Wait(seat, cond, Next::Stay);
            Ok(release(setting, replay, object, event))
        }
        LogLine::Until(seat, pred) => {
            let event = Event::Until(seat, pred, Next::Stay);
            Ok(release(setting, replay, object, event))
        }
        LogLine::Signal(seat, cond) => Ok(signal(setting, replay, object, seat, cond)),
        LogLine::Lapse(seat) => Ok(Err(lapse_blame(setting.seats, seat))),
    }
}

/// Judges the line after a signal that lacks its second line.
fn line_half<T: Guarded>(
    setting: MonitorSetting,
    replay: &Replay,
    object: &T,
    seat: u8,
    cond: u8,
    line: LogLine,
) -> Result<Pending, Blame>
    requires sound { IsReplayOf setting.seats setting.conds T.PREDICATES replay.now }
    ensures { stand_or (replay_situation replay.now (T.state object.now)) result
        ≡ stands.line_half (monitor_in setting T.meaning) (replay_situation replay.now (T.state object.now)) seat
        cond line }
{
    match line {
        LogLine::Leave(other) if other == seat => {
            let event = Event::SignalLeave(seat, cond, Next::Stay);
            release(setting, replay, object, event)
        }
        LogLine::Wait(other, second) if other == seat => {
            let event = Event::SignalWait(seat, cond, second, Next::Stay);
            release(setting, replay, object, event)
        }
        _ => Err(half_blame(setting, replay, object, line)),
    }
}

/// Whether the line says that a timed wait ran out.
fn is_lapse(line: LogLine) -> bool
    ensures { result ≡ told.is_lapse line }
{
    matches!(line, LogLine::Lapse(_))
}

/// Returns the release with the choice that the line shows.
fn told_release<T: Guarded>(replay: &Replay, object: &T, event: Event, line: LogLine) -> Event
    requires { All (λ w. w.1 < T.PREDICATES) (replay_situation replay.now []).untils }
    ensures { result ≡ told.told_release T.meaning (replay_situation replay.now (T.state object.now)) event line }
{
    event.with_next(Fronts::at(replay, object, event).told_next(line))
}

/// Whether the release fails a test.
#[tactic(auto, using(crate::proofs::Tests::early_refused))]
fn refuses<T: Guarded>(setting: MonitorSetting, replay: &Replay, object: &T, event: Event) -> bool
    requires sound { IsReplayOf setting.seats setting.conds T.PREDICATES replay.now }
    requires no_act { answered_act event ≡ None }
    ensures { result ≡ not (reason_in (monitor_in setting T.meaning)
        (replay_situation replay.now (T.state object.now)) event == 0) }
{
    match replay.call_reason(setting.rules, object, setting.conds, event) {
        Some(_) => true,
        None => {
            let stays = replay.must_stay(object, event);
            !Fronts::at(replay, object, event).permits(setting.rules, stays, event)
        }
    }
}

/// Judges the line after a release. It shows the release's choice.
#[tactic(auto, using(crate::proofs::ToldLaws::told_goes, crate::proofs::ToldLaws::told_more))]
fn line_told<T: Guarded>(
    setting: MonitorSetting,
    replay: &mut Replay,
    object: &mut T,
    events: &mut Vec<Event>,
    event: Event,
    line: LogLine,
) -> Result<Result<Pending, Blame>, AllocError>
    requires sound { IsReplayOf setting.seats setting.conds T.PREDICATES replay.old }
    requires called { MayCallIn (monitor_in setting T.meaning)
        (replay_situation replay.old (T.state object.old)) event }
    requires release { next_of event ≡ Some Next.Stay }
    ensures judged { IfOk result (λ r. stand_or (replay_situation replay.new (T.state object.new)) r
        ≡ stands.line_told (monitor_in setting T.meaning) (replay_situation replay.old (T.state object.old)) event
        line) }
    ensures sound { IfOk result (λ r. OnOk r (IsReplayOf setting.seats setting.conds T.PREDICATES replay.new)) }
    ensures events { IfOk result (λ r. OnOk r (events.new.items ≡ events.old.items ++ told_events T.meaning
        (replay_situation replay.old (T.state object.old)) (Pending.Release event) line)) }
{
    let told = told_release(replay, object, event, line);
    if is_lapse(line) || refuses(setting, replay, object, told) {
        let blame = release_blame(setting, replay, object, event, line)?;
        return Ok(Err(blame));
    }
    let _settled = settle(setting, replay, object, events, told)?;
    line_settled(setting, replay, object, events, line)
}

/// Judges a line, by what is not yet known of the last event before it.
pub(crate) fn judge_line<T: Guarded>(
    setting: MonitorSetting,
    replay: &mut Replay,
    object: &mut T,
    events: &mut Vec<Event>,
    pending: Pending,
    line: LogLine,
) -> Result<Result<Pending, Blame>, AllocError>
    requires sound { IsReplayOf setting.seats setting.conds T.PREDICATES replay.old }
    requires held { IsHeldOver (monitor_in setting T.meaning)
        (replay_situation replay.old (T.state object.old)) pending }
    ensures judged { IfOk result (λ r. stand_or (replay_situation replay.new (T.state object.new)) r
        ≡ stands.line_behind (monitor_in setting T.meaning) (replay_situation replay.old (T.state object.old)) pending
        line) }
    ensures sound { IfOk result (λ r. OnOk r (IsReplayOf setting.seats setting.conds T.PREDICATES replay.new)) }
    ensures events { IfOk result (λ r. OnOk r (events.new.items ≡ events.old.items ++ told_events T.meaning
        (replay_situation replay.old (T.state object.old)) pending line)) }
{
    match pending {
        Pending::Settled => line_settled(setting, replay, object, events, line),
        Pending::Half(seat, cond) => Ok(line_half(setting, replay, object, seat, cond, line)),
        Pending::Release(event) => line_told(setting, replay, object, events, event, line),
    }
}
