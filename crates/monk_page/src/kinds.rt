//! The same events under each kind.

ghost use Rattle.std.specs.Prelude.{OnOk, codes, option_map};
ghost use Rattle.monk_tell.specs.Told.{blame_of};
ghost use Rattle.monk_page.specs.{Blame.why_json, Json.list_json, Json.option_json, Kinds.kind_json};
ghost use Rattle.monk_page.specs.{Kinds.verdict_json, Writes.AddsMember, Writes.AddsValue};

use crate::in_json::{JsonText, member};
use crate::told_history::ToldHistory;
use monk_audit::{AuditFault, Verdict, audit, under};
use monk_kinds::KindName;
use monk_tell::{ForbiddenEvent, JudgedHistory, tell_judged};
use std::alloc::AllocError;

/// Writes why an event is forbidden, if one is.
fn write_why(out: &mut JsonText, blame: &Option<ForbiddenEvent>) -> Result<(), AllocError>
    ensures { OnOk result (AddsMember (codes "why")
        (option_json (λ b. why_json b.why) (option_map blame_of blame.now)) out.old.writer out.new.writer) }
{
    match blame {
        Some(blame) => member(out, "why", &blame.why),
        None => {
            out.writer.key("why")?;
            out.writer.null()
        }
    }
}

/// Writes the verdict for a monitor of that kind, and why an event is forbidden.
fn write_verdict(
    out: &mut JsonText,
    kind: KindName,
    verdict: Verdict,
    blame: &Option<ForbiddenEvent>,
) -> Result<(), AllocError>
    ensures { OnOk result (AddsValue (verdict_json kind verdict (option_map blame_of blame.now))
        out.old.writer out.new.writer) }
{
    out.writer.begin_object()?;
    member(out, "kind", &kind.as_str())?;
    let said = format!(in out.alloc; "{verdict}")?;
    member(out, "verdict", &said.as_str())?;
    write_why(out, blame)?;
    out.writer.end_object()?;
    Ok(())
}

/// Writes what an audit of the events finds if the monitor is of another kind. The events before a
/// forbidden one are replayed only if there is one.
#[tactic(auto, unfolding(crate::specs::Kinds::kind_json))]
fn write_other(out: &mut JsonText, told: ToldHistory, kind: KindName) -> Result<(), AllocError>
    ensures { OnOk result
        (AddsValue (kind_json told.entry.header.now told.entry.events.now kind) out.old.writer out.new.writer) }
{
    let header = under(told.header, kind);
    let verdict = match audit(out.alloc, &header, told.events) {
        Ok(verdict) => verdict,
        Err(AuditFault::Memory) => return Err(AllocError),
        // The size isn't above the object's greatest.
        Err(AuditFault::Object) => unreachable!(),
    };
    if let Verdict::Legal(_) = verdict {
        return write_verdict(out, kind, verdict, &None);
    }
    let history = JudgedHistory {
        header: &header,
        events: told.events,
        verdict,
    };
    // (`before` is above `last`, so there are no steps)
    match tell_judged(out.alloc, history, 1, 0) {
        Ok((telling, _)) => write_verdict(out, kind, verdict, &telling.blame),
        Err(AuditFault::Memory) => Err(AllocError),
        // The size isn't above the object's greatest.
        Err(AuditFault::Object) => unreachable!(),
    }
}

/// Writes what an audit of the events finds if the monitor is of that kind.
fn write_kind(out: &mut JsonText, told: ToldHistory, kind: KindName) -> Result<(), AllocError>
    ensures { OnOk result
        (AddsValue (kind_json told.entry.header.now told.entry.events.now kind) out.old.writer out.new.writer) }
{
    if kind != told.header.kind() {
        return write_other(out, told, kind);
    }
    write_verdict(out, kind, told.telling.verdict, &told.telling.blame)
}

/// Writes the values for these kinds.
pub(crate) fn write_kinds(
    out: &mut JsonText,
    told: ToldHistory,
    kinds: &[KindName],
) -> Result<(), AllocError>
    ensures { OnOk result
        (AddsValue (list_json (kind_json told.entry.header.now told.entry.events.now) kinds.now)
        out.old.writer out.new.writer) }
{
    out.writer.begin_array()?;
    for kind in kinds {
        write_kind(out, told, *kind)?;
    }
    out.writer.end_array()
}
