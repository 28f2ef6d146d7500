//! The release at the end of a log, whose choice no line shows.

ghost use Rattle.std.specs.Prelude.{◌≡◌, ◌++◌, OnOk};
ghost use Rattle.monk_audit.specs.Replay.{IsReplayOf, replay_situation};
ghost use Rattle.monk_history.specs.Meaning.Release.{MayCallIn};
ghost use Rattle.monk_completion.specs.Ending as endings;
ghost use Rattle.monk_completion.specs.Stand.{IsHeldOver, monitor_in};

use crate::fronts::Fronts;
use crate::pending::Pending;
use crate::setting::MonitorSetting;
use monk_audit::Replay;
use monk_history::{Event, Next};
use monk_object::Guarded;
use std::alloc::AllocError;

/// Returns what the release chooses if nobody wishes for anything.
fn unwished<T: Guarded>(setting: MonitorSetting, replay: &Replay, object: &T, event: Event) -> Next
    requires sound { IsReplayOf setting.seats setting.conds T.PREDICATES replay.now }
    requires called { MayCallIn (monitor_in setting T.meaning)
        (replay_situation replay.now (T.state object.now)) event }
    ensures { result ≡ endings.unwished_next setting.rules T.meaning
        (replay_situation replay.now (T.state object.now)) event }
{
    if replay.must_stay(object, event) {
        return Next::Stay;
    }
    Fronts::at(replay, object, event).unwished(setting.rules, event.seat())
}

/// Returns the release whose choice no line shows. If a signal lacks its second line, its caller leaves.
fn last_release(pending: Pending) -> Option<Event>
    ensures { result ≡ endings.last_release pending }
{
    match pending {
        Pending::Settled => None,
        Pending::Half(seat, cond) => Some(Event::SignalLeave(seat, cond, Next::Stay)),
        Pending::Release(event) => Some(event),
    }
}

/// Adds the release with which the log ends, if it ends with one.
pub(crate) fn end<T: Guarded>(
    setting: MonitorSetting,
    replay: &Replay,
    object: &T,
    pending: Pending,
    events: &mut Vec<Event>,
) -> Result<(), AllocError>
    requires sound { IsReplayOf setting.seats setting.conds T.PREDICATES replay.now }
    requires held { IsHeldOver (monitor_in setting T.meaning)
        (replay_situation replay.now (T.state object.now)) pending }
    ensures { OnOk result (events.new.items ≡ events.old.items ++ endings.last_events setting.rules T.meaning
        (replay_situation replay.now (T.state object.now)) pending) }
{
    if let Some(event) = last_release(pending) {
        let next = unwished(setting, replay, object, event);
        events.push(event.with_next(next))?;
    }
    Ok(())
}
