//! What is wrong with an event that is not allowed.

ghost use Rattle.std.specs.Prelude.{◌≡◌, ◌<◌, [], true, All, IfOk};
ghost use Rattle.monk_history.specs.Meaning.{Monitor.monitor, Reasons.fits_object, Reasons.reason_in};
ghost use Rattle.monk_audit.specs.{Reasons.number_of, Replay.replay_situation};
ghost use Rattle.monk_tell.specs.Told.{blame_of, blame_of_event, choice_of, chosen_at};
ghost use Rattle.monk_tell.specs.Cause.{choice_cause, own_reply};

use crate::choice::Choice;
use crate::forbidden::ForbiddenEvent;
use crate::lines::{line_up, must_stay};
use crate::permitted::choice_from;
use crate::queues::Conditions;
use crate::sentences::{early, still_waits, wrong_choice, wrong_reply};
use crate::why::Why;
use monk_audit::{Reason, Replay};
use monk_history::{Event, Header};
use monk_kinds::Rules;
use monk_object::Guarded;
use std::alloc::{AllocError, Global};

/// Returns the reply that the object would have given, if the event is an act.
fn own_reply<T: Guarded>(object: &mut T, event: Event) -> Option<u64>
    requires { fits_object T.CODES T.PREDICATES event ≡ true }
    ensures { result ≡ own_reply T.meaning (T.state object.old) event }
{
    match event {
        Event::Act(_, op, _) => Some(object.act(op)),
        _ => None,
    }
}

/// Returns what the event chose from and might have chosen, and why it may not choose what it chose.
fn choice<T: Guarded>(
    alloc: Global,
    header: &Header,
    rules: Rules,
    replay: &Replay,
    object: &T,
    event: Event,
) -> Result<(Choice, Why), AllocError>
    requires preds { All (λ w. w.1 < T.PREDICATES) (replay_situation replay.now (T.state object.now)).untils }
    requires fits { fits_object T.CODES T.PREDICATES event ≡ true }
    ensures chosen { IfOk result
        (λ r. choice_of r.0 ≡ chosen_at rules T.meaning (replay_situation replay.now (T.state object.now)) event) }
    ensures why { IfOk result (λ r. r.1 ≡ choice_cause header.now.kind rules header.now.conds T.meaning
        (replay_situation replay.now (T.state object.now)) event) }
{
    let stays = must_stay(replay, object, event);
    let lines = line_up(alloc, replay, object, event)?;
    let conditions = Conditions::of(alloc, replay, header.conds())?;
    let waits = still_waits(&conditions, &lines.waiters, event);
    let choice = choice_from(alloc, rules, &lines, stays, event)?;
    Ok((
        choice,
        wrong_choice(header.kind(), rules, lines.firsts(), waits, stays, event),
    ))
}

/// The first event that is not allowed.
#[derive(Clone, Copy)]
pub(crate) struct FirstForbidden {
    /// Its number, counted from 1.
    pub(crate) step: u32,
    /// The first reason against it.
    pub(crate) reason: Reason,
    /// The event.
    pub(crate) event: Event,
}

/// Returns what is wrong with it.
pub(crate) fn blame<T: Guarded>(
    alloc: Global,
    header: &Header,
    rules: Rules,
    replay: &Replay,
    object: &mut T,
    fault: FirstForbidden,
) -> Result<ForbiddenEvent, AllocError>
    requires preds { All (λ w. w.1 < T.PREDICATES) (replay_situation replay.now (T.state object.old)).untils }
    requires reason { number_of fault.reason ≡ reason_in
        (monitor rules header.now.seats header.now.conds T.meaning [])
        (replay_situation replay.now (T.state object.old)) fault.event }
    ensures { IfOk result
        (λ b. blame_of b ≡ blame_of_event header.now.kind rules header.now.seats header.now.conds T.meaning
        (replay_situation replay.now (T.state object.old)) fault.step (number_of fault.reason) fault.event) }
{
    let FirstForbidden {
        step,
        reason,
        event,
    } = fault;
    match reason {
        Reason::Choice => {
            let (choice, why) = choice(alloc, header, rules, replay, object, event)?;
            Ok(ForbiddenEvent {
                step,
                event,
                reply: None,
                choice: Some(choice),
                why,
            })
        }
        Reason::Reply => {
            let reply = own_reply(object, event);
            Ok(ForbiddenEvent {
                step,
                event,
                reply,
                choice: None,
                why: wrong_reply(reply, event),
            })
        }
        Reason::Range | Reason::Call | Reason::Turn | Reason::Place => Ok(ForbiddenEvent {
            step,
            event,
            reply: None,
            choice: None,
            why: early(alloc, header, replay, reason, event)?,
        }),
    }
}
