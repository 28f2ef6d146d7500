//! The steps of a history.

ghost use Rattle.std.specs.Prelude.{◌≡◌, ◌≤◌, IfOk, OnOk, map, min};
ghost use Rattle.monk_object.specs.Names.{meaning_named};
ghost use Rattle.monk_history.specs.Meaning.Named.{named_monitor};
ghost use Rattle.monk_tell.specs.{Steps.IsAfter, Steps.step_of, Steps.steps_of, Told.allowed_events};

use crate::judged::JudgedHistory;
use crate::standing::Standing;
use crate::step::{Step, carry_out};
use monk_audit::{Replay, rules_by_name};
use monk_object::{Guarded, Listed};
use std::alloc::{AllocError, Global};

/// Carries out the events after the first `from`, up to number `to`. They are allowed.
pub(crate) fn follow<T: Guarded>(
    alloc: Global,
    history: JudgedHistory<'_>,
    replay: &mut Replay,
    object: &mut T,
    from: usize,
    to: usize,
) -> Result<(), AllocError>
    requires named { T.meaning ≡ meaning_named history.header.now.object }
    requires order { from ≤ to }
    requires allowed { to ≤ allowed_events history.verdict }
    requires begins { IsAfter history.header.now history.events.now from T.PREDICATES replay.old (T.state object.old) }
    ensures { OnOk result (IsAfter history.entry.header.now history.entry.events.now to T.PREDICATES replay.new
        (T.state object.new)) }
{
    for before in from..to {
        carry_out(alloc, history, replay, object, before)?;
    }
    Ok(())
}

/// Returns the steps after the first `before` events up to number `end`, all allowed. None if `end`
/// is below `before`.
pub(crate) fn steps_from<T: Listed>(
    alloc: Global,
    history: JudgedHistory<'_>,
    replay: &mut Replay,
    object: &mut T,
    before: usize,
    end: usize,
) -> Result<Vec<Step>, AllocError>
    requires named { T.meaning ≡ meaning_named history.header.now.object }
    requires allowed { end ≤ allowed_events history.verdict }
    requires begins { IsAfter history.header.now history.events.now (min before end) T.PREDICATES replay.old
        (T.state object.old) }
    ensures told { IfOk result
        (λ v. map step_of v.items ≡ steps_of (named_monitor history.entry.header.now) history.entry.events.now
        before end) }
    ensures ends { OnOk result (IsAfter history.entry.header.now history.entry.events.now end T.PREDICATES replay.new
        (T.state object.new)) }
{
    let mut steps = Vec::new(alloc);
    if before > end {
        return Ok(steps);
    }
    let rules = rules_by_name(history.header.kind());
    steps.push(Step {
        event: None,
        choice: None,
        standing: Standing::of(alloc, history.header, rules.mode, &*replay, &*object)?,
    })?;
    for index in 0..end - before {
        let step = Step::behind(alloc, history, replay, object, before + index)?;
        steps.push(step)?;
    }
    Ok(steps)
}
