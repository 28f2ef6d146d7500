//! The data of a log's page.

ghost use Rattle.std.specs.Prelude.{◌≡◌, ◌-◌, OnOk, codes, length};
ghost use Rattle.serde_json.specs.Data.{no_members};
ghost use Rattle.monk_judge.specs.{Judged.after_all, Run.IsRun, Shown.setting_of, Shown.state_of};
ghost use Rattle.monk_judge.specs.Followed.{behind_lines, followed, telling};
ghost use Rattle.monk_page.specs.{Json.list_json, Writes.AddsMember, Writes.AddsMembers, Writes.AddsValue};
ghost use Rattle.monk_page.specs.Log.{misfit_json, place_json, state_json, told_json, with_run, with_state, wrong_json};

use crate::in_json::{InJson, JsonText, member, write_list};
use monk_draw::Span;
use monk_judge::{Judge, Misfit, Place, Step, cut};
use monk_logs::LogLine;
use monk_object::Listed;
use monk_tell::data_numbers;
use std::alloc::AllocError;

impl InJson for Place {
    ghost json = { place_json };

    fn write(&self, out: &mut JsonText) -> Result<(), AllocError> {
        let said = format!(in out.alloc; "{self}")?;
        out.writer.string(said.as_str())
    }
}

/// Writes who holds the lock, where the threads are, and the data.
fn write_members<T: Listed>(out: &mut JsonText, judge: &Judge<T>) -> Result<(), AllocError>
    ensures { OnOk result (AddsMembers (with_state (length judge.now.places) (state_of judge.now) no_members)
        out.old.writer out.new.writer) }
{
    member(out, "lock", &judge.lock())?;
    out.writer.key("places")?;
    write_list(out, judge.places())?;
    let data = data_numbers(out.alloc, judge.object())?;
    member(out, "state", &data)
}

fn write_state<T: Listed>(out: &mut JsonText, judge: &Judge<T>) -> Result<(), AllocError>
    ensures { OnOk result
        (AddsValue (state_json (length judge.now.places) (state_of judge.now)) out.old.writer out.new.writer) }
{
    out.writer.begin_object()?;
    write_members(out, judge)?;
    out.writer.end_object()
}

/// Writes a step, with the state after it, in which the judge is.
fn write_told<T: Listed>(out: &mut JsonText, judge: &Judge<T>, step: Step) -> Result<(), AllocError>
    ensures { OnOk result
        (AddsValue (told_json (length judge.now.places) (step, state_of judge.now)) out.old.writer out.new.writer) }
{
    out.writer.begin_object()?;
    write_members(out, judge)?;
    let text = format!(in out.alloc; "{step}")?;
    member(out, "told", &text.as_str())?;
    out.writer.end_object()
}

/// Writes the steps, each with the state after it.
fn write_steps<T: Listed>(
    out: &mut JsonText,
    judge: &mut Judge<T>,
    steps: &[Step],
) -> Result<(), AllocError>
    requires { IsRun (setting_of judge.old T.meaning) (state_of judge.old) steps.now }
    ensures { OnOk result (AddsValue (list_json (told_json (length judge.old.places))
        (followed (setting_of judge.old T.meaning) (state_of judge.old) steps.now)) out.old.writer out.new.writer) }
{
    out.writer.begin_array()?;
    for step in steps {
        judge.follow(*step);
        write_told(out, judge, *step)?;
    }
    out.writer.end_array()
}

/// Leads the judge to where the span begins. Returns the steps that tell the lines of the span.
pub(crate) fn lead<'a, T: Listed>(judge: &mut Judge<T>, steps: &'a [Step], span: Span) -> &'a [Step]
    requires { IsRun (setting_of judge.old T.meaning) (state_of judge.old) steps.now }
    ensures setting { setting_of judge.new T.meaning ≡ setting_of judge.old T.meaning }
    ensures state { state_of judge.new
        ≡ after_all (setting_of judge.old T.meaning) (state_of judge.old) (telling span.before steps.now) }
    ensures shown { result.now ≡ telling (span.last - span.before) (behind_lines span.before steps.now) }
    ensures run { IsRun (setting_of judge.new T.meaning) (state_of judge.new) result.now }
{
    let (early, rest) = cut(steps, span.before);
    let (shown, _behind) = cut(rest, span.last.saturating_sub(span.before));
    judge.follow_all(early);
    shown
}

/// Writes the steps that tell the lines of the span, and the state before them.
pub(crate) fn write_run<T: Listed>(
    out: &mut JsonText,
    judge: &mut Judge<T>,
    steps: &[Step],
    span: Span,
) -> Result<(), AllocError>
    requires { IsRun (setting_of judge.old T.meaning) (state_of judge.old) steps.now }
    ensures { OnOk result (AddsMembers (with_run (setting_of judge.old T.meaning) (state_of judge.old) steps.now
        span.before span.last no_members) out.old.writer out.new.writer) }
{
    let shown = lead(judge, steps, span);
    out.writer.key("start")?;
    write_state(out, judge)?;
    out.writer.key("steps")?;
    write_steps(out, judge, shown)
}

/// Writes the line that misfits, and why.
fn write_wrong(out: &mut JsonText, misfit: Misfit, line: LogLine) -> Result<(), AllocError>
    ensures { OnOk result (AddsValue (wrong_json misfit line) out.old.writer out.new.writer) }
{
    out.writer.begin_object()?;
    member(out, "index", &(misfit.line as u64))?;
    let text = format!(in out.alloc; "{}", Step::Tells(line, None))?;
    member(out, "told", &text.as_str())?;
    member(out, "why", &misfit.why.sentence())?;
    member(out, "word", &misfit.why.text())?;
    out.writer.end_object()
}

/// Writes the misfit, or null if there is none.
pub(crate) fn write_misfit(
    out: &mut JsonText,
    misfit: Option<Misfit>,
    lines: &[LogLine],
) -> Result<(), AllocError>
    ensures { OnOk result (AddsMember (codes "misfit") (misfit_json misfit lines.now) out.old.writer out.new.writer) }
{
    out.writer.key("misfit")?;
    let Some(misfit) = misfit else {
        return out.writer.null();
    };
    match lines.get(misfit.line) {
        Some(line) => write_wrong(out, misfit, *line),
        None => out.writer.null(),
    }
}
