//! The picture or the page of a history, or its part of a page of several.

ghost use Rattle.std.specs.Prelude.{◌≡◌, ◌≤◌, ◌^◌, length, IfOk, string_bytes};
ghost use Rattle.monk_history.specs.Text.Reading.{history, text_at};
ghost use Rattle.monk_commands.specs.Answer.{IsReading, verdict_answer};
ghost use Rattle.monk_commands.specs.Shown.{IsAnsweredBy, IsShown, IsShownAs, form_of};

use crate::answer::{LineAnswer, behind, too_big, unreadable};
use crate::fitting_history::FittingHistory;
use crate::show::{HistoryForm, Show};
use monk_audit::{AuditFault, Verdict, audit};
use monk_draw::{Window, is_behind, showable};
use monk_history::{Event, Header, read};
use monk_page::{NOTHING_TOLD, article, page_of};
use monk_tell::forbidden_step;
use std::alloc::{AllocError, Global};

fn status_of(verdict: Verdict) -> u8
    ensures { result ≡ (verdict_answer verdict).status }
{
    match verdict {
        Verdict::Legal(_) => 0,
        Verdict::Forbidden { .. } => 1,
    }
}

/// Returns the text that shows a history with this verdict.
fn shown_text(
    alloc: Global,
    form: HistoryForm<'_>,
    history: FittingHistory<'_>,
    window: Option<Window>,
    verdict: Verdict,
) -> Result<String, AllocError>
    ensures { IfOk result
        (λ text. IsShownAs form.entry window history.entry.header.now history.entry.events.now
        (string_bytes text)) }
{
    let FittingHistory { header, events } = history;
    let shown = match form {
        HistoryForm::Picture(picture) => {
            picture.of_history(alloc, header, events, window, verdict)
        }
        HistoryForm::Page => match article(alloc, header, events, window, NOTHING_TOLD) {
            Ok(article) => return Ok(page_of(alloc, article.as_str())?),
            Err(fault) => Err(fault),
        },
        HistoryForm::Article(beside) => article(alloc, header, events, window, beside),
    };
    match shown {
        Ok(text) => Ok(text),
        Err(AuditFault::Memory) => Err(AllocError),
        // The size isn't above the object's greatest.
        Err(AuditFault::Object) => unreachable!(),
    }
}

/// Returns the answer that shows it, if the first event that is asked for can be shown.
fn shown_if_there(
    alloc: Global,
    form: HistoryForm<'_>,
    history: FittingHistory<'_>,
    window: Option<Window>,
    verdict: Verdict,
) -> Result<LineAnswer, AllocError>
    ensures { IfOk result
        (λ a. IsAnsweredBy form.entry window verdict history.entry.header.now history.entry.events.now
        a.status (string_bytes a.text)) }
{
    let last = showable(forbidden_step(verdict), history.events.len());
    if is_behind(window, last) {
        return behind(alloc, last);
    }
    Ok(LineAnswer {
        status: status_of(verdict),
        text: shown_text(alloc, form, history, window, verdict)?,
    })
}

/// Returns the answer to a history that was read.
fn shown(
    alloc: Global,
    form: HistoryForm<'_>,
    header: &Header,
    events: &[Event],
    window: Option<Window>,
) -> Result<LineAnswer, AllocError>
    requires few { length events.now ≤ 2 ^ 25 }
    ensures { IfOk result
        (λ a. IsShown form.entry window (history header.now events.now) a.status (string_bytes a.text)) }
{
    match audit(alloc, header, events) {
        Ok(verdict) => {
            let history = FittingHistory { header, events };
            shown_if_there(alloc, form, history, window, verdict)
        }
        Err(AuditFault::Memory) => Err(AllocError),
        Err(AuditFault::Object) => too_big(alloc),
    }
}

/// Returns the answer to the text of a history.
pub(crate) fn shown_in_form(
    alloc: Global,
    form: HistoryForm<'_>,
    window: Option<Window>,
    bytes: &[u8],
) -> Result<LineAnswer, AllocError>
    ensures { IfOk result
        (λ a. IsReading (IsShown form.entry window) (text_at (2 ^ 25) bytes.now) a.status (string_bytes a.text)) }
{
    match read(alloc, bytes) {
        Ok((header, events)) => shown(alloc, form, &header, &events, window),
        Err(fault) => unreadable(alloc, fault),
    }
}

/// Returns the picture or the page of a history, from its text, or why there is none. See
/// [`Task::Draw`](crate::Task::Draw). It fails only for want of memory.
pub fn show_history(
    alloc: Global,
    show: Show<'_>,
    window: Option<Window>,
    bytes: &[u8],
) -> Result<LineAnswer, AllocError>
    ensures { IfOk result (λ a. IsReading (IsShown (form_of show.entry) window) (text_at (2 ^ 25) bytes.now)
        a.status (string_bytes a.text)) }
{
    match show {
        Show::Picture(picture) => {
            shown_in_form(alloc, HistoryForm::Picture(picture), window, bytes)
        }
        Show::Page => shown_in_form(alloc, HistoryForm::Page, window, bytes),
    }
}
