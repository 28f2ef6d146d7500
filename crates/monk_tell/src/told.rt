//! The answer for a history.

ghost use Rattle.std.specs.Prelude.{◌≡◌, ◌≤◌, ◌<◌, ◌^◌, IfOk, OnOk, IsErrOf, length, map, option_map};
ghost use Rattle.monk_object.specs.Names.{meaning_named, most, opening_named};
ghost use Rattle.monk_history.specs.Meaning.Named.{named_monitor};
ghost use Rattle.monk_tell.specs.Steps.{IsAfter, step_of, steps_between};
ghost use Rattle.monk_tell.specs.Told.{account, allowed_events, blame_by, blame_of, telling_of};

use crate::forbidden::ForbiddenEvent;
use crate::judged::{JudgedHistory, allowed_events};
use crate::judging::{FirstForbidden, blame};
use crate::refused::refused_acts;
use crate::standing::Standing;
use crate::step::Step;
use crate::steps::{follow, steps_from};
use crate::telling::Telling;
use monk_audit::{AuditFault, Reason, Replay, Verdict, audit, rules_by_name};
use monk_history::{Event, Header};
use monk_object::{Book, Buffer, Flags, Guarded, Listed, ObjectFault, ObjectName, Shop};
use std::alloc::{AllocError, Global};

/// Returns what is wrong with the first event that is not allowed, if there is one. `replay` has the events before it.
fn blamed<T: Guarded>(
    alloc: Global,
    history: JudgedHistory<'_>,
    replay: &Replay,
    object: &mut T,
) -> Result<Option<ForbiddenEvent>, AllocError>
    requires named { T.meaning ≡ meaning_named history.header.now.object }
    requires stands { IsAfter history.header.now history.events.now (allowed_events history.verdict) T.PREDICATES
        replay.now (T.state object.old) }
    ensures { IfOk result (λ b. option_map blame_of b ≡ blame_by history.entry.header.now.kind
        (named_monitor history.entry.header.now) history.entry.events.now history.entry.verdict) }
{
    match history.verdict {
        Verdict::Legal(_) => Ok(None),
        Verdict::Forbidden { step, reason } => {
            let rules = rules_by_name(history.header.kind());
            let fault = FirstForbidden {
                step,
                reason: Reason::numbered(reason),
                event: history.events[step as usize - 1],
            };
            let blame = blame(alloc, history.header, rules, replay, object, fault)?;
            Ok(Some(blame))
        }
    }
}

/// Returns the answer for a history, from the replay of the events before the first that is not allowed.
fn telling<T: Listed>(
    alloc: Global,
    history: JudgedHistory<'_>,
    replay: &Replay,
    object: &mut T,
) -> Result<Telling, AllocError>
    requires named { T.meaning ≡ meaning_named history.header.now.object }
    requires stands { IsAfter history.header.now history.events.now (allowed_events history.verdict) T.PREDICATES
        replay.now (T.state object.old) }
    ensures { IfOk result (λ t. telling_of t ≡ account history.entry.header.now history.entry.events.now) }
{
    let header = history.header;
    let rules = rules_by_name(header.kind());
    let past = &history.events[..allowed_events(history.verdict)];
    let standing = Standing::of(alloc, header, rules.mode, replay, &*object)?;
    let refused = refused_acts(alloc, past)?;
    let blame = blamed(alloc, history, replay, object)?;
    Ok(Telling {
        kind: header.kind(),
        object: header.object(),
        verdict: history.verdict,
        standing,
        refused,
        blame,
    })
}

/// Returns the answer for a history and the steps that are asked for, over the object in its opening state.
fn tell_over<T: Listed>(
    alloc: Global,
    history: JudgedHistory<'_>,
    object: T,
    before: usize,
    last: usize,
) -> Result<(Telling, Vec<Step>), AllocError>
    requires named { T.meaning ≡ meaning_named history.header.now.object }
    requires opening { T.state object ≡ opening_named history.header.now.object history.header.now.size }
    ensures told { IfOk result
        (λ r. telling_of r.0 ≡ account history.entry.header.now history.entry.events.now) }
    ensures steps { IfOk result
        (λ r. map step_of r.1.items ≡ steps_between history.entry.header.now history.entry.events.now before last) }
{
    let mut object = object;
    let allowed = allowed_events(history.verdict);
    let end = last.min(allowed);
    let begin = before.min(end);
    let mut replay = Replay::opening(alloc, history.header.seats(), history.header.conds())?;
    follow(alloc, history, &mut replay, &mut object, 0, begin)?;
    let steps = steps_from(alloc, history, &mut replay, &mut object, before, end)?;
    follow(alloc, history, &mut replay, &mut object, end, allowed)?;
    let telling = telling(alloc, history, &replay, &mut object)?;
    Ok((telling, steps))
}

/// Does the same over an object in its opening state, if it was made.
fn tell_made<T: Listed>(
    alloc: Global,
    history: JudgedHistory<'_>,
    made: Result<T, ObjectFault>,
    before: usize,
    last: usize,
) -> Result<(Telling, Vec<Step>), AuditFault>
    requires named { T.meaning ≡ meaning_named history.header.now.object }
    requires opening { IfOk made
        (λ o. T.state o ≡ opening_named history.header.now.object history.header.now.size) }
    ensures told { IfOk result
        (λ r. telling_of r.0 ≡ account history.entry.header.now history.entry.events.now) }
    ensures steps { IfOk result
        (λ r. map step_of r.1.items ≡ steps_between history.entry.header.now history.entry.events.now before last) }
    ensures object { IsErrOf result AuditFault.Object → IsErrOf made ObjectFault.Size }
{
    Ok(tell_over(alloc, history, made?, before, last)?)
}

/// Returns what [`tell`] and [`tell_steps`] return, by one replay, for a history whose verdict is known.
///
/// # Errors
///
/// [`AuditFault::Object`] only if the size is above the object's greatest. [`AuditFault::Memory`]
/// if a request for memory was refused.
///
/// # Cost
///
/// One replay of the events before the first that is not allowed, and the cost of the steps.
pub fn tell_judged(
    alloc: Global,
    history: JudgedHistory<'_>,
    before: usize,
    last: usize,
) -> Result<(Telling, Vec<Step>), AuditFault>
    ensures told { IfOk result
        (λ r. telling_of r.0 ≡ account history.entry.header.now history.entry.events.now) }
    ensures steps { IfOk result
        (λ r. map step_of r.1.items ≡ steps_between history.entry.header.now history.entry.events.now before last) }
    ensures object { IsErrOf result AuditFault.Object
        → most history.entry.header.now.object < history.entry.header.now.size }
{
    let size = history.header.size();
    match history.header.object() {
        ObjectName::Buffer => { tell_made(alloc, history, Buffer::make(alloc, size), before, last) }
        ObjectName::Book => tell_made(alloc, history, Book::make(size), before, last),
        ObjectName::Shop => tell_made(alloc, history, Shop::make(size), before, last),
        ObjectName::Flags => tell_made(alloc, history, Flags::make(size), before, last),
    }
}

/// Returns what [`audit`] finds, and the state of the monitor before the first event that is not allowed, or
/// at the end of a legal history. Also lists the acts that the object refused up to there. If an event is not
/// allowed, gives it and what is wrong with it. If its reply is wrong, gives the object's own reply. If its
/// choice is wrong, gives what the event chose from and each next that is permitted.
///
/// # Errors
///
/// [`AuditFault::Object`] exactly if the size is above the object's greatest.
/// [`AuditFault::Memory`] if a request for memory was refused.
///
/// # Cost
///
/// Two passes over the events, each as [`audit`] takes one, and a third one for refused acts.
/// Memory is needed for the queues, the object and the result.
pub fn tell(alloc: Global, header: &Header, events: &[Event]) -> Result<Telling, AuditFault>
    requires { length events.now ≤ 2 ^ 25 }
    // All of the result is right, and so is the sentence.
    ensures told { IfOk result (λ t. telling_of t ≡ account header.now events.now) }
    ensures fits { OnOk result (header.now.size ≤ most header.now.object) }
    ensures object { IsErrOf result AuditFault.Object → most header.now.object < header.now.size }
    ensures too_big { most header.now.object < header.now.size → IsErrOf result AuditFault.Object }
{
    let verdict = audit(alloc, header, events)?;
    let history = JudgedHistory {
        header,
        events,
        verdict,
    };
    // (`before` is above `last`, so there are no steps)
    let (telling, _) = tell_judged(alloc, history, 1, 0)?;
    Ok(telling)
}

/// Returns the state of the monitor after the first `before` events. Then, for each event up to number `last`,
/// counted from 1, returns what it chose from and the state after it. The steps end before the first event that is
/// not allowed, or with the last event of a legal history. If they would begin after that, there are none.
///
/// # Errors
///
/// [`AuditFault::Object`] exactly if the size is above the object's greatest.
/// [`AuditFault::Memory`] if a request for memory was refused.
///
/// # Cost
///
/// As [`tell`], and memory for the steps. The time and memory of a step depend on the seats, the
/// conditions and the size of the object, and not on the number of events.
pub fn tell_steps(
    alloc: Global,
    header: &Header,
    events: &[Event],
    before: usize,
    last: usize,
) -> Result<Vec<Step>, AuditFault>
    requires { length events.now ≤ 2 ^ 25 }
    ensures told { IfOk result (λ v. map step_of v.items ≡ steps_between header.now events.now before last) }
    ensures fits { OnOk result (header.now.size ≤ most header.now.object) }
    ensures object { IsErrOf result AuditFault.Object → most header.now.object < header.now.size }
    ensures too_big { most header.now.object < header.now.size → IsErrOf result AuditFault.Object }
{
    let verdict = audit(alloc, header, events)?;
    let history = JudgedHistory {
        header,
        events,
        verdict,
    };
    let (_, steps) = tell_judged(alloc, history, before, last)?;
    Ok(steps)
}
