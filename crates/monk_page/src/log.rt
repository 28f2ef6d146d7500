//! A log's page.

ghost use Rattle.std.specs.Prelude.{IfOk, OnOk, string_bytes};
ghost use Rattle.serde_json.specs.Data.{no_members};
ghost use Rattle.monk_judge.specs.Run.{IsRun, opening, setting};
ghost use Rattle.monk_page.specs.{Log.IsLogPage, Log.log_json, Log.with_header, Writes.AddsMembers, Writes.AddsValue};

use crate::in_json::{JsonText, member};
use crate::log_data::{write_misfit, write_run};
use crate::shell::{NOTHING_TOLD, article_around, page_with};
use crate::shown_run::ShownRun;
use crate::template::ends::LOG;
use monk_judge::{Judge, Run};
use monk_logs::{LogHeader, LogLine};
use monk_object::Listed;
use std::alloc::{AllocError, Global};

/// Writes what the header says, the number of lines before those that are shown, and the misfit.
fn write_header(
    out: &mut JsonText,
    header: &LogHeader,
    run: &Run,
    lines: &[LogLine],
    before: usize,
) -> Result<(), AllocError>
    ensures { OnOk result (AddsMembers (with_header header.now run.now lines.now before no_members)
        out.old.writer out.new.writer) }
{
    member(out, "before", &(before as u64))?;
    member(out, "conditions", &header.conds())?;
    write_misfit(out, run.misfit, lines)?;
    member(out, "object", &header.object().as_str())?;
    member(out, "seats", &header.seats())?;
    member(out, "size", &header.size())?;
    Ok(())
}

fn write_log<T: Listed>(
    out: &mut JsonText,
    header: &LogHeader,
    object: T,
    shown: ShownRun<'_>,
) -> Result<(), AllocError>
    requires { IsRun (setting header.now.seats header.now.conds T.meaning) (opening (T.state object))
        shown.run.now.steps.items }
    ensures { OnOk result (AddsValue
        (log_json header.now T.meaning (T.state object) shown.entry.run.now shown.entry.lines.now
        shown.entry.span.before shown.entry.span.last)
        out.old.writer out.new.writer) }
{
    let mut judge = Judge::opening(out.alloc, header.seats(), header.conds(), object)?;
    out.writer.begin_object()?;
    write_header(out, header, shown.run, shown.lines, shown.span.before)?;
    write_run(out, &mut judge, &shown.run.steps, shown.span)?;
    out.writer.end_object()?;
    Ok(())
}

/// Returns the page of a log, as one HTML text: the picture of a run that tells it, and its data
/// step by step, for the page's script. The data are in it unbroken
/// ([`logs_are_unbroken`](crate::laws::logs_are_unbroken)).
///
/// `object` is the object that the lock guards, in its opening state.
///
/// # Errors
///
/// A request for memory was refused.
///
/// # Cost
///
/// One pass over the steps of the run. Memory for the page: some 100 bytes for each line that is
/// shown, and a few for each seat.
pub fn log_page<T: Listed>(
    alloc: Global,
    picture: &str,
    header: &LogHeader,
    object: T,
    shown: ShownRun<'_>,
) -> Result<String, AllocError>
    requires { IsRun (setting header.now.seats header.now.conds T.meaning) (opening (T.state object))
        shown.run.now.steps.items }
    ensures { IfOk result (λ page. IsLogPage header.now T.meaning (T.state object) shown.entry.run.now
        shown.entry.lines.now shown.entry.span.before shown.entry.span.last (string_bytes page)) }
{
    let mut out = JsonText::new(alloc);
    write_log(&mut out, header, object, shown)?;
    let data = out.text()?;
    let article = article_around(alloc, picture, data.as_str(), NOTHING_TOLD)?;
    page_with(alloc, article.as_str(), LOG)
}
