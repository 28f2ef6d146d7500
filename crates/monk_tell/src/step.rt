//! One step of a history.

ghost use Rattle.std.specs.Prelude.{◌≡◌, ◌<◌, ◌+◌, true, All, IfOk, OnOk, option_map};
ghost use Rattle.monk_object.specs.Names.{meaning_named};
ghost use Rattle.monk_history.specs.Meaning.{Named.named_monitor, Reasons.fits_object};
ghost use Rattle.monk_audit.specs.Replay.{replay_situation};
ghost use Rattle.monk_tell.specs.Told.{allowed_events, choice_of};
ghost use Rattle.monk_tell.specs.Steps.{IsAfter, event_step, release_choice, step_of};

use crate::choice::Choice;
use crate::judged::JudgedHistory;
use crate::lines::{line_up, must_stay};
use crate::permitted::choice_from;
use crate::standing::Standing;
use monk_audit::{Replay, rules_by_name};
use monk_history::Event;
use monk_kinds::Rules;
use monk_object::{Guarded, Listed};
use std::alloc::{AllocError, Global};

/// An event, what it chose from, and the state of the monitor after it.
#[derive(Debug, Drop)]
pub struct Step {
    /// The event; `None` for the situation in which the steps begin.
    pub event: Option<Event>,
    /// What it chose from and what it might have chosen, if it is a release.
    pub choice: Option<Choice>,
    /// The state of the monitor after it.
    pub standing: Standing,
}

impl Step {
    /// Returns the step of the event after the first `before`. It is allowed, and replay and object carry it out.
    pub(crate) fn behind<T: Listed>(
        alloc: Global,
        history: JudgedHistory<'_>,
        replay: &mut Replay,
        object: &mut T,
        before: usize,
    ) -> Result<Step, AllocError>
        requires named { T.meaning ≡ meaning_named history.header.now.object }
        requires allowed { before < allowed_events history.verdict }
        requires stands { IsAfter history.header.now history.events.now before T.PREDICATES replay.old
            (T.state object.old) }
        ensures step { IfOk result (λ s. step_of s ≡ event_step (named_monitor history.entry.header.now)
            history.entry.events.now (before + 1)) }
        ensures after { OnOk result (IsAfter history.entry.header.now history.entry.events.now (before + 1)
            T.PREDICATES replay.new (T.state object.new)) }
    {
        let (header, event) = (history.header, history.events[before]);
        let rules = rules_by_name(header.kind());
        let choice = release_choice(alloc, rules, replay, object, event)?;
        carry_out(alloc, history, replay, object, before)?;
        let standing = Standing::of(alloc, header, rules.mode, replay, object)?;
        Ok(Step {
            event: Some(event),
            choice,
            standing,
        })
    }
}

/// Carries out the event after the first `before`, which is allowed.
pub(crate) fn carry_out<T: Guarded>(
    alloc: Global,
    history: JudgedHistory<'_>,
    replay: &mut Replay,
    object: &mut T,
    before: usize,
) -> Result<(), AllocError>
    requires named { T.meaning ≡ meaning_named history.header.now.object }
    requires allowed { before < allowed_events history.verdict }
    requires stands { IsAfter history.header.now history.events.now before T.PREDICATES replay.old
        (T.state object.old) }
    ensures { OnOk result (IsAfter history.entry.header.now history.entry.events.now (before + 1) T.PREDICATES
        replay.new (T.state object.new)) }
{
    let rules = rules_by_name(history.header.kind());
    let event = history.events[before];
    replay.carry_out(alloc, rules, object, history.header.conds(), event)?;
    Ok(())
}

/// Returns what the event chooses from and what it might choose, if it is a release.
fn release_choice<T: Guarded>(
    alloc: Global,
    rules: Rules,
    replay: &Replay,
    object: &T,
    event: Event,
) -> Result<Option<Choice>, AllocError>
    requires preds { All (λ w. w.1 < T.PREDICATES) (replay_situation replay.now (T.state object.now)).untils }
    requires fits { fits_object T.CODES T.PREDICATES event ≡ true }
    ensures { IfOk result
        (λ c. option_map choice_of c ≡ release_choice rules T.meaning
        (replay_situation replay.now (T.state object.now)) event) }
{
    if event.choice().is_none() {
        return Ok(None);
    }
    let stays = must_stay(replay, object, event);
    let lines = line_up(alloc, replay, object, event)?;
    Ok(Some(choice_from(alloc, rules, &lines, stays, event)?))
}
