//! How a history or a log is judged.

ghost use Rattle.std.specs.Prelude.{◌≡◌, ◌≤◌, ◌^◌, ◌++◌, length, IfOk, OnOk, string_bytes};
ghost use Rattle.monk_history.specs.Text.Reading.{history};
ghost use Rattle.monk_commands.specs.Answer.{IsOf};
ghost use Rattle.monk_commands.specs.FitAnswered as answered;

use crate::answer::{LineAnswer, too_big, unreadable, verdict_answer};
use crate::fit_form::FitForm;
use crate::fitting_history::FittingHistory;
use crate::logs::answering::answer_to_log;
use crate::logs::finding_json::fault_json;
use crate::logs::view::LogView;
use crate::question::Question;
use monk_audit::{AuditFault, Verdict, audit, under};
use monk_history::{Event, Header, read};
use monk_kinds::KindName;
use std::alloc::{AllocError, Global};

/// Returns the verdict on the events under the kind, whatever kind the header names.
fn verdict_under(
    alloc: Global,
    history: FittingHistory<'_>,
    kind: KindName,
) -> Result<Verdict, AllocError>
    ensures verdict { IfOk result
        (λ v. v ≡ answered.verdict_under history.entry.header.now history.entry.events.now kind) }
{
    match audit(alloc, &under(history.header, kind), history.events) {
        Ok(verdict) => Ok(verdict),
        Err(AuditFault::Memory) => Err(AllocError),
        // The size isn't above the object's greatest.
        Err(AuditFault::Object) => unreachable!(),
    }
}

/// Appends the line of the kind to the page. Returns whether the events are legal under the kind.
fn put_line(
    alloc: Global,
    page: &mut String,
    history: FittingHistory<'_>,
    kind: KindName,
) -> Result<bool, AllocError>
    ensures line { OnOk result
        (string_bytes page.new ≡ string_bytes page.old
        ++ answered.fit_line history.entry.header.now history.entry.events.now kind) }
    ensures fit { IfOk result (λ fits. fits
        ≡ answered.is_fit (answered.verdict_under history.entry.header.now history.entry.events.now kind)) }
{
    let verdict = verdict_under(alloc, history, kind)?;
    let answer = verdict_answer(alloc, verdict)?;
    page.push_str(kind.as_str())?;
    page.push_str(" ")?;
    page.push_str(answer.text.as_str())?;
    Ok(answer.status == 0)
}

/// Returns a line for each of these kinds. The status is 0 if the events are legal under one of them, else 1.
fn lines_under(
    alloc: Global,
    kinds: &[KindName],
    history: FittingHistory<'_>,
) -> Result<LineAnswer, AllocError>
    ensures { IfOk result
        (λ a. IsOf (answered.fit_answer kinds.now history.entry.header.now history.entry.events.now)
        a.status (string_bytes a.text)) }
{
    let mut text = String::new(alloc);
    let mut is_fit = false;
    for kind in kinds {
        is_fit |= put_line(alloc, &mut text, history, *kind)?;
    }
    let status = if is_fit { 0 } else { 1 };
    Ok(LineAnswer { status, text })
}

/// Returns the answer to a history that was read, under these kinds.
fn fit(
    alloc: Global,
    kinds: &[KindName],
    header: &Header,
    events: &[Event],
) -> Result<LineAnswer, AllocError>
    requires few { length events.now ≤ 2 ^ 25 }
    ensures { IfOk result
        (λ a. answered.IsFit kinds.now (history header.now events.now) a.status (string_bytes a.text)) }
{
    if header.size() > header.object().greatest_size() {
        return too_big(alloc);
    }
    lines_under(alloc, kinds, FittingHistory { header, events })
}

/// Returns the answer to the text of a history under these kinds.
fn fit_bytes(alloc: Global, kinds: &[KindName], bytes: &[u8]) -> Result<LineAnswer, AllocError>
    ensures { IfOk result (λ a. answered.IsFitText kinds.now bytes.now a.status (string_bytes a.text)) }
{
    match read(alloc, bytes) {
        Ok((header, events)) => fit(alloc, kinds, &header, &events),
        Err(fault) => unreadable(alloc, fault),
    }
}

/// Returns the answer with the name and `: ` before it.
pub(crate) fn named(alloc: Global, name: &str, answer: LineAnswer) -> Result<LineAnswer, AllocError>
    ensures same { IfOk result (λ a. a.status ≡ answer.status) }
    ensures text { IfOk result (λ a. string_bytes a.text ≡ answered.named_line name.now (string_bytes answer.text)) }
{
    let (status, line) = (answer.status, answer.text);
    let text = format!(in alloc; "{name}: {line}")?;
    Ok(LineAnswer { status, text })
}

/// Says under which kinds the text of a history is legal, or why that isn't known. See
/// [`Task::Fit`](crate::Task::Fit). It fails only for want of memory.
pub fn fit_history(
    alloc: Global,
    question: Question<'_>,
    bytes: &[u8],
) -> Result<LineAnswer, AllocError>
    ensures { IfOk result (λ a. answered.IsHistoryFit question.entry.kind question.entry.name.now bytes.now
        a.status (string_bytes a.text)) }
{
    match question.kind {
        Some(kind) => named(alloc, question.name, fit_bytes(alloc, &[kind], bytes)?),
        None => fit_bytes(alloc, &KindName::ALL, bytes),
    }
}

/// Returns the answer with the name and `: ` before each of its lines.
fn each_named(alloc: Global, name: &str, answer: LineAnswer) -> Result<LineAnswer, AllocError>
    ensures { IfOk result (λ a. a.status ≡ answer.status) }
{
    let mut text = String::new(alloc);
    for line in answer.text.as_str().lines() {
        let named = format!(in alloc; "{name}: {line}\n")?;
        text.push_str(named.as_str())?;
    }
    Ok(LineAnswer {
        status: answer.status,
        text,
    })
}

/// Answers a text that isn't a log in that form. See [`Task::Fit`](crate::Task::Fit). It fails only for want of memory.
pub(crate) fn fit_other(
    alloc: Global,
    form: FitForm,
    question: Question<'_>,
    bytes: &[u8],
) -> Result<LineAnswer, AllocError> {
    match (form, question.kind) {
        (FitForm::Json, _) => no_log(alloc, question.name),
        (FitForm::Named, None) => {
            let answer = fit_history(alloc, question, bytes)?;
            each_named(alloc, question.name, answer)
        }
        (FitForm::Words | FitForm::Named, _) => fit_history(alloc, question, bytes),
    }
}

/// Returns the line of JSON that says that the text isn't a log.
fn no_log(alloc: Global, name: &str) -> Result<LineAnswer, AllocError> {
    let text = fault_json(alloc, name, "no log: its first word isn't `log`")?;
    Ok(LineAnswer { status: 2, text })
}

/// Says how the text of a log is judged, or why it isn't. See [`Task::Fit`](crate::Task::Fit). It fails only for want
/// of memory.
pub fn fit_log(
    alloc: Global,
    form: FitForm,
    question: Question<'_>,
    bytes: Vec<u8>,
) -> Result<LineAnswer, AllocError>
    ensures { IfOk result
        (λ a. answered.IsLogFit form question.entry bytes.items a.status (string_bytes a.text)) }
{
    match form {
        FitForm::Words | FitForm::Named => {
            let answer = answer_to_log(alloc, LogView::Line, question, bytes)?;
            named(alloc, question.name, answer)
        }
        FitForm::Json => answer_to_log(alloc, LogView::Json, question, bytes),
    }
}
