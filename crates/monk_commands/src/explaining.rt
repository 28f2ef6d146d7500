//! How a history or a log is judged, and why.

ghost use Rattle.std.specs.Prelude.{◌≡◌, ◌≤◌, ◌^◌, length, IfOk, string_bytes};
ghost use Rattle.monk_history.specs.Text.Reading.{history, text_at};
ghost use Rattle.monk_tell.specs.Told.{telling_of};
ghost use Rattle.monk_commands.specs.{Answer.IsReading, LogAnswered.IsAnswerToLog};
ghost use Rattle.monk_commands.specs.Explained.{IsExplained, IsTold, judged_under};

use crate::answer::{LineAnswer, too_big, unreadable, verdict_answer};
use crate::logs::answering::answer_to_log;
use crate::logs::view::LogView;
use crate::question::Question;
use monk_audit::{AuditFault, under};
use monk_history::{Event, Header, read};
use monk_kinds::KindName;
use monk_tell::{Telling, tell};
use std::alloc::{AllocError, Global};

/// Returns the line of the verdict, followed by what explains it.
fn told(alloc: Global, telling: &Telling) -> Result<LineAnswer, AllocError>
    ensures { IfOk result (λ a. IsTold (telling_of telling.now) a.status (string_bytes a.text)) }
{
    let mut answer = verdict_answer(alloc, telling.verdict)?;
    let lines = format!(in alloc; "{telling}")?;
    answer.text.push_str(lines.as_str())?;
    Ok(answer)
}

/// Returns the answer to a history that was read, under the kind that is named, or its own.
pub(crate) fn explained(
    alloc: Global,
    kind: Option<KindName>,
    header: &Header,
    events: &[Event],
) -> Result<LineAnswer, AllocError>
    requires few { length events.now ≤ 2 ^ 25 }
    ensures { IfOk result
        (λ a. IsExplained kind (history header.now events.now) a.status (string_bytes a.text)) }
{
    let header = judged_under(kind, header);
    match tell(alloc, &header, events) {
        Ok(telling) => told(alloc, &telling),
        Err(AuditFault::Object) => too_big(alloc),
        Err(AuditFault::Memory) => Err(AllocError),
    }
}

/// Returns the header, with the named kind if one is named.
fn judged_under(kind: Option<KindName>, header: &Header) -> Header
    ensures heading { result ≡ judged_under kind header.now }
    ensures object { result.object ≡ header.now.object }
    ensures size { result.size ≡ header.now.size }
{
    match kind {
        Some(kind) => under(header, kind),
        None => *header,
    }
}

/// Explains how the text of a history is judged, by the kind that is named or its own. See
/// [`Task::Explain`](crate::Task::Explain). It fails only for want of memory.
pub fn explain_history(
    alloc: Global,
    kind: Option<KindName>,
    bytes: &[u8],
) -> Result<LineAnswer, AllocError>
    ensures { IfOk result
        (λ a. IsReading (IsExplained kind) (text_at (2 ^ 25) bytes.now) a.status (string_bytes a.text)) }
{
    match read(alloc, bytes) {
        Ok((header, events)) => explained(alloc, kind, &header, &events),
        Err(fault) => unreadable(alloc, fault),
    }
}

/// Explains how the text of a log is judged. See [`Task::Explain`](crate::Task::Explain). It fails only for want of
/// memory.
pub fn explain_log(
    alloc: Global,
    question: Question<'_>,
    bytes: Vec<u8>,
) -> Result<LineAnswer, AllocError>
    ensures { IfOk result
        (λ a. IsAnswerToLog LogView.Explanation question.entry bytes.items a.status (string_bytes a.text)) }
{
    answer_to_log(alloc, LogView::Explanation, question, bytes)
}
