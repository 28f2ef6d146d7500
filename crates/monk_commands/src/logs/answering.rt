//! The answer to a log.

ghost use Rattle.std.specs.Prelude.{◌≡◌, ◌≤◌, ◌^◌, IfOk, length, string_bytes};
ghost use Rattle.monk_history.specs.Text.Lines.{Gives};
ghost use Rattle.monk_logs.specs.Log.Reading.{log_at, log_view};
ghost use Rattle.monk_commands.specs.LogAnswered as answered;
ghost use Rattle.monk_commands.specs.LogFound as found;
ghost use Rattle.monk_commands.specs.LogFound.{IsFinding};

use crate::answer::{LineAnswer, unreadable};
use crate::logs::explanation::explanation;
use crate::logs::finding::Finding;
use crate::logs::finding_json::{fault_json, finding_json};
use crate::logs::finding_line::finding_line;
use crate::logs::fitting_log::FittingLog;
use crate::logs::judging::report;
use crate::logs::refusal::LogRefusal;
use crate::logs::view::LogView;
use crate::question::Question;
use monk_history::ReadFault;
use monk_judge::{Misfit, WaitsFor};
use monk_logs::{LogHeader, LogLine, read_log};
use std::alloc::{AllocError, Global};

/// Whether the first word of the text is `log`.
pub(crate) fn is_log(bytes: &[u8]) -> bool
    ensures { result ≡ answered.is_log_text bytes.now }
{
    bytes.starts_with(b"log ")
}

/// Returns the seat of the line that misfits, or 0 if none does.
fn wrong_seat(misfit: Option<Misfit>, lines: &[LogLine]) -> u8
    ensures { result ≡ found.wrong_seat misfit lines.now }
{
    match misfit {
        Some(misfit) => match lines.get(misfit.line) {
            Some(line) => line.seat(),
            None => 0,
        },
        None => 0,
    }
}

/// Returns what is found for a log.
fn finding(
    alloc: Global,
    means: &[WaitsFor],
    has_ended: bool,
    log: FittingLog<'_>,
) -> Result<Finding, AllocError>
    ensures { IfOk result (λ f. IsFinding means.now has_ended log.entry.header.now log.entry.lines.now f) }
{
    let report = report(alloc, means, log)?;
    Ok(Finding {
        report,
        seats: log.header.seats(),
        wrong_seat: wrong_seat(report.misfit, log.lines),
        has_ended,
    })
}

/// Returns the answer that says by this line why nothing is found.
fn refused(alloc: Global, view: LogView, name: &str, line: String) -> Result<LineAnswer, AllocError>
    ensures { IfOk result
        (λ a. (a.status ≡ 2) × answered.Says view (string_bytes line) (string_bytes a.text)) }
{
    let status = 2;
    match view {
        LogView::Line | LogView::Explanation => Ok(LineAnswer { status, text: line }),
        LogView::Json => {
            let text = fault_json(alloc, name, line.as_str())?;
            Ok(LineAnswer { status, text })
        }
    }
}

/// Returns the answer to a log that is judged.
fn judged(
    alloc: Global,
    view: LogView,
    question: Question<'_>,
    log: FittingLog<'_>,
) -> Result<LineAnswer, AllocError>
    ensures { IfOk result (λ a. answered.IsJudged view question.entry.means.now question.entry.has_ended
        log.entry.header.now log.entry.lines.now a.status (string_bytes a.text)) }
{
    let finding = finding(alloc, question.means, question.has_ended, log)?;
    let status = finding.status();
    let text = match view {
        LogView::Line => finding_line(alloc, &finding)?,
        LogView::Json => finding_json(alloc, question.name, &finding)?,
        LogView::Explanation => explanation(alloc, question.beside, log, &finding)?,
    };
    Ok(LineAnswer { status, text })
}

/// Returns the answer to a log that was read.
fn answer_to_read(
    alloc: Global,
    view: LogView,
    question: Question<'_>,
    header: &LogHeader,
    lines: &[LogLine],
) -> Result<LineAnswer, AllocError>
    requires few { length lines.now ≤ 2 ^ 25 }
    ensures { IfOk result (λ a. answered.IsLogAnswer view question.entry.kind question.entry.means.now
        question.entry.has_ended header.now lines.now a.status (string_bytes a.text)) }
{
    match LogRefusal::of(question.kind, question.means, header, lines) {
        Some(refusal) => refused(alloc, view, question.name, refusal.line(alloc)?),
        None => judged(alloc, view, question, FittingLog { header, lines }),
    }
}

/// Reads the log that has this text. The text isn't kept: it takes a third of the lines' memory.
fn read_and_drop(alloc: Global, bytes: Vec<u8>) -> Result<(LogHeader, Vec<LogLine>), ReadFault>
    ensures few { IfOk result (λ r. length r.1.items ≤ 2 ^ 25) }
    ensures exact { Gives log_view result (log_at (2 ^ 25) bytes.items) }
{
    read_log(alloc, &bytes)
}

/// Returns the answer to the text of a log.
pub(crate) fn answer_to_log(
    alloc: Global,
    view: LogView,
    question: Question<'_>,
    bytes: Vec<u8>,
) -> Result<LineAnswer, AllocError>
    ensures { IfOk result
        (λ a. answered.IsAnswerToLog view question.entry bytes.items a.status (string_bytes a.text)) }
{
    match read_and_drop(alloc, bytes) {
        Ok((header, lines)) => answer_to_read(alloc, view, question, &header, &lines),
        Err(fault) => refused(alloc, view, question.name, unreadable(alloc, fault)?.text),
    }
}
