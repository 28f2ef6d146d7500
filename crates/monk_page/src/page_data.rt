//! The data of a page.

ghost use Rattle.std.specs.Prelude.{OnOk, codes, map};
ghost use Rattle.monk_tell.specs.{Steps.step_of, Told.telling_of};
ghost use Rattle.serde_json.specs.Data.{no_members};
ghost use Rattle.monk_page.specs.{Json.list_json, Step.step_json};
ghost use Rattle.monk_page.specs.Page.{forbidden_json, steps_json, told_json, with_counts, with_judged, with_kinds};
ghost use Rattle.monk_page.specs.Writes.{AddsMember, AddsMembers, AddsValue};

use crate::in_json::{InJson, JsonText, member};
use crate::kinds::write_kinds;
use crate::step::write_step;
use crate::told_history::ToldHistory;
use monk_audit::rules_by_name;
use monk_draw::Span;
use monk_kinds::KindName;
use monk_object::ObjectName;
use monk_tell::{Ranks, Step, Telling, mode_word};
use std::alloc::AllocError;

/// The version of this data.
const FORM: u8 = 1;

/// Writes the steps of a monitor over the object.
fn write_list(out: &mut JsonText, object: ObjectName, steps: &[Step]) -> Result<(), AllocError>
    ensures { OnOk result (AddsValue (list_json (step_json object) (map step_of steps.now))
        out.old.writer out.new.writer) }
{
    out.writer.begin_array()?;
    for step in steps {
        write_step(out, object, step)?;
    }
    out.writer.end_array()
}

/// Writes the steps after the first `before` events, up to the last that is shown.
fn write_steps(out: &mut JsonText, told: ToldHistory) -> Result<(), AllocError>
    ensures { OnOk result (AddsValue (steps_json told.entry.header.now told.entry.events.now
        told.entry.span.before told.entry.span.last) out.old.writer out.new.writer) }
{
    write_list(out, told.header.object(), told.steps)
}

/// Writes what is wrong with the forbidden event, if it is shown.
fn write_forbidden(out: &mut JsonText, telling: &Telling, span: Span) -> Result<(), AllocError>
    ensures { OnOk result (AddsMember (codes "forbidden")
        (forbidden_json span.before span.last (telling_of telling.now)) out.old.writer out.new.writer) }
{
    out.writer.key("forbidden")?;
    match &telling.blame {
        Some(blame) if span.before < blame.step as usize && blame.step as usize <= span.last => {
            blame.write(out)
        }
        _ => out.writer.null(),
    }
}

/// Writes the kind, and how each kind judges the events.
fn write_own_kind(out: &mut JsonText, told: ToldHistory) -> Result<(), AllocError>
    ensures { OnOk result (AddsMembers (with_kinds told.entry.header.now told.entry.events.now no_members)
        out.old.writer out.new.writer) }
{
    let kind = told.header.kind();
    member(out, "kind", &kind.as_str())?;
    out.writer.key("kinds")?;
    write_kinds(out, told, &KindName::ALL)?;
    let rules = rules_by_name(kind);
    member(out, "mode", &mode_word(rules.mode))?;
    Ok(())
}

/// Writes how many events there are, which one is forbidden, and the kind.
fn write_counts(out: &mut JsonText, told: ToldHistory) -> Result<(), AllocError>
    ensures { OnOk result (AddsMembers (with_counts told.entry.header.now told.entry.events.now
        told.entry.span.before told.entry.span.last no_members) out.old.writer out.new.writer) }
{
    let header = told.header;
    member(out, "before", &(told.span.before as u64))?;
    member(out, "conditions", &header.conds())?;
    member(out, "events", &(told.events.len() as u64))?;
    write_forbidden(out, told.telling, told.span)?;
    write_own_kind(out, told)?;
    Ok(())
}

/// Writes the rest of the header, the steps that are shown, and the verdict.
fn write_judged(out: &mut JsonText, told: ToldHistory) -> Result<(), AllocError>
    ensures { OnOk result (AddsMembers (with_judged told.entry.header.now told.entry.events.now
        told.entry.span.before told.entry.span.last no_members) out.old.writer out.new.writer) }
{
    let header = told.header;
    member(out, "object", &header.object().as_str())?;
    member(out, "page", &FORM)?;
    let ranks = format!(in out.alloc; "{}", Ranks(rules_by_name(header.kind())))?;
    member(out, "ranks", &ranks.as_str())?;
    member(out, "seats", &header.seats())?;
    member(out, "size", &header.size())?;
    out.writer.key("steps")?;
    write_steps(out, told)?;
    let verdict = format!(in out.alloc; "{}", told.telling.verdict)?;
    member(out, "verdict", &verdict.as_str())?;
    member(out, "version", &header.version())?;
    Ok(())
}

/// Writes the data of a page: the events that are shown, and how all events are judged.
pub(crate) fn write_page(out: &mut JsonText, told: ToldHistory) -> Result<(), AllocError>
    ensures { OnOk result (AddsValue (told_json told.entry) out.old.writer out.new.writer) }
{
    out.writer.begin_object()?;
    write_counts(out, told)?;
    write_judged(out, told)?;
    out.writer.end_object()?;
    Ok(())
}
