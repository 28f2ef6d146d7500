//! One step of a history.

ghost use Rattle.std.specs.Prelude.{OnOk};
ghost use Rattle.serde_json.specs.Data.{no_members};
ghost use Rattle.monk_tell.specs.{Steps.step_of, Told.standing_of};
ghost use Rattle.monk_page.specs.Step.{event_json, step_json, with_event, with_queues};
ghost use Rattle.monk_page.specs.Writes.{AddsMembers, AddsValue};

use crate::in_json::{InJson, JsonText, member};
use monk_history::Event;
use monk_object::{InWords, ObjectName};
use monk_tell::{SaidEvent, SaidTurn, Standing, Step};
use std::alloc::AllocError;

impl InJson for Event {
    ghost json = { event_json };

    fn write(&self, out: &mut JsonText) -> Result<(), AllocError> {
        let said = format!(in out.alloc; "{}", SaidEvent(*self))?;
        out.writer.string(said.as_str())
    }
}

/// Writes the event, and the members for the monitor and the object, in order up to who is inside.
#[tactic(auto, using(crate::proofs::PageLaws::option_told))]
fn write_event(out: &mut JsonText, object: ObjectName, step: &Step) -> Result<(), AllocError>
    ensures { OnOk result (AddsMembers (with_event object (step_of step.now) no_members)
        out.old.writer out.new.writer) }
{
    let standing = &step.standing;
    member(out, "choice", &step.choice)?;
    member(out, "conditions", &standing.queues.conditions)?;
    let words = InWords {
        object,
        state: &standing.data.0,
    };
    let data = format!(in out.alloc; "{words}")?;
    member(out, "data", &data.as_str())?;
    member(out, "event", &step.event)?;
    member(out, "inside", &standing.inside)
}

#[tactic(auto, using(crate::proofs::PageLaws::option_told))]
fn write_queues(out: &mut JsonText, standing: &Standing) -> Result<(), AllocError>
    ensures { OnOk result (AddsMembers (with_queues (standing_of standing.now) no_members)
        out.old.writer out.new.writer) }
{
    let queues = &standing.queues;
    member(out, "ready", &queues.ready)?;
    member(out, "signaller", &queues.signallers)?;
    member(out, "state", &standing.data.0)?;
    let turn = format!(in out.alloc; "{}", SaidTurn(standing.turn))?;
    member(out, "turn", &turn.as_str())?;
    member(out, "until", &queues.untils)?;
    member(out, "waiter", &queues.waiters)?;
    Ok(())
}

/// Writes a step of a monitor over the object.
#[tactic(auto, unfolding(crate::specs::Step::step_json))]
pub(crate) fn write_step(
    out: &mut JsonText,
    object: ObjectName,
    step: &Step,
) -> Result<(), AllocError>
    ensures { OnOk result (AddsValue (step_json object (step_of step.now)) out.old.writer out.new.writer) }
{
    out.writer.begin_object()?;
    write_event(out, object, step)?;
    write_queues(out, &step.standing)?;
    out.writer.end_object()?;
    Ok(())
}
