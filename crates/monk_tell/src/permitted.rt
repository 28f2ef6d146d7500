//! What a release may choose.

ghost use Rattle.std.specs.Prelude.{◌≡◌, IfOk, filter};
ghost use Rattle.monk_object.specs.Object.{Object};
ghost use Rattle.monk_history.specs.Meaning.{Release.with_next, Situation.Situation};
ghost use Rattle.monk_history.specs.Meaning.Choice.{must_stay, queues_at};
ghost use Rattle.monk_audit.specs.Settled.{permits};
ghost use Rattle.monk_tell.specs.Permitted.{candidates, fronts};
ghost use Rattle.monk_tell.specs.Told.{choice_of, chosen_at, lines_of};

use crate::choice::Choice;
use crate::lines::Lines;
use crate::lists::{FrontList, Nexts};
use monk_audit::permits;
use monk_history::{Event, From3, Next};
use monk_kinds::Rules;
use std::alloc::{AllocError, Global};

/// Returns the first seats of the queues that aren't empty.
fn fronts(alloc: Global, lines: &Lines) -> Result<Vec<(From3, u8)>, AllocError>
    ensures { IfOk result (λ v. v.items ≡ fronts (lines_of lines.now)) }
{
    let mut fronts = Vec::new(alloc);
    if let Some(seat) = lines.waiters.first() {
        fronts.push((From3::Waiter, *seat))?;
    }
    if let Some(seat) = lines.signallers.first() {
        fronts.push((From3::Signaller, *seat))?;
    }
    if let Some(seat) = lines.ready.first() {
        fronts.push((From3::Until, *seat))?;
    }
    Ok(fronts)
}

/// Returns all that could be chosen at most.
fn candidates(alloc: Global, lines: &Lines) -> Result<Vec<Next>, AllocError>
    ensures { IfOk result (λ v. v.items ≡ candidates (lines_of lines.now)) }
{
    let mut nexts = vec![in alloc; Next::Stay, Next::Entry]?;
    if let Some(seat) = lines.waiters.first() {
        nexts.push(Next::Waiter(*seat))?;
    }
    if let Some(seat) = lines.signallers.first() {
        nexts.push(Next::Signaller(*seat))?;
    }
    if let Some(seat) = lines.ready.first() {
        nexts.push(Next::Until(*seat))?;
    }
    Ok(nexts)
}

/// Whether the event might have chosen `next` from these queues.
fn is_permitted(rules: Rules, lines: &Lines, stays: bool, event: Event, next: Next) -> bool
    ensures { result ≡ permits rules (lines_of lines.now) stays (with_next next event) }
{
    let ready = lines.ready.first().copied();
    permits(
        rules,
        &lines.waiters,
        &lines.signallers,
        ready,
        stays,
        event.with_next(next),
    )
}

/// Returns those of the nexts that the event might have chosen.
fn permitted_of(
    alloc: Global,
    nexts: &[Next],
    rules: Rules,
    lines: &Lines,
    stays: bool,
    event: Event,
) -> Result<Vec<Next>, AllocError>
    ensures { IfOk result
        (λ v. v.items ≡ filter (λ x. permits rules (lines_of lines.now) stays (with_next x event)) nexts.now) }
{
    nexts
        .iter()
        .copied()
        .filter(|next| is_permitted(rules, lines, stays, event, *next))
        .collect(alloc)
}

/// Returns what the event chooses from and what it might choose. `stays` says whether it must stay.
pub(crate) fn choice_from(
    alloc: Global,
    rules: Rules,
    lines: &Lines,
    stays: bool,
    event: Event,
) -> Result<Choice, AllocError>
    ensures { IfOk result
        (λ c. (o : Object) (t : Situation) → lines_of lines.now ≡ queues_at o t event → stays ≡ must_stay o t event
        → choice_of c ≡ chosen_at rules o t event) }
{
    let (fronts, nexts) = (fronts(alloc, lines)?, candidates(alloc, lines)?);
    let may = permitted_of(alloc, &nexts, rules, lines, stays, event)?;
    Ok(Choice {
        fronts: FrontList(fronts),
        may: Nexts(may),
    })
}
