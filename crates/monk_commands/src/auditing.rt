//! The auditor's stream. It reads all of a reader by pieces, and writes one line.

ghost use Rattle.std.specs.Prelude.{◌≡◌, ◌≤◌, false, IfOk, IfSome, ◌↔◌};
ghost use Rattle.monk_audit.specs.{Audits.owes, Audits.IsGoingOn, Reading.same, Reading.text_verdict};
ghost use Rattle.monk_history.specs.Text.{Lines.Gives, Device.inner_of, Device.has_failed};
ghost use Rattle.monk_commands.specs.{Answer.answer_of, Streams.Answers, Streams.IsReading, Streams.IsStreamOutcome};
ghost use Rattle.monk_commands.specs.Legal.{IsLegalText, IsForbiddenText};

use crate::answer::{answer_to, put};
use crate::fault::StreamFault;
use crate::input::{Taker, take_all};
use monk_audit::{TextAudit, TextVerdict};
use monk_history::{Device, ReadFault};
use std::alloc::{AllocError, Global};
use std::io::{Read, Write};

/// An audit takes the bytes of a text, by pieces.
impl Taker for TextAudit {
    ghost use Rattle.std.specs.Prelude.{Result};
    ghost use Rattle.monk_history.specs.declared.text.fault.ReadFault.{ReadFault};
    ghost use Rattle.monk_audit.specs.declared.text_verdict.TextVerdict.{TextVerdict};
    ghost use Rattle.monk_audit.specs.Audits.{owes, IsGoingOn};

    ghost Told = { Result TextVerdict ReadFault };

    ghost tells = { owes };

    ghost is_sound = { IsGoingOn };

    fn take(&mut self, alloc: Global, piece: &[u8]) -> Result<(), AllocError> {
        self.push(alloc, piece)
    }
}

/// Audits the text that the reader has, at most 2^31 bytes in at most 2^31 reads. The result is that of
/// [`audit_text`](monk_audit::audit_text). Each piece is judged when it comes. No more of the text is held than that
/// piece and a line.
fn audit_all<R: Read>(
    alloc: Global,
    reader: &mut Device<R>,
) -> Result<Result<TextVerdict, ReadFault>, StreamFault>
    requires { has_failed reader.old ≡ false }
    ensures verdict { IfOk result (λ r. IfSome (R.remaining (inner_of reader.old))
        (λ input. Gives same r (text_verdict input))) }
    ensures reading { IsReading R.remaining reader.old reader.new result }
{
    let mut audit = TextAudit::new(alloc);
    take_all(alloc, reader, &mut audit)?;
    Ok(audit.end(alloc))
}

/// Reads all of the reader and writes one line, the answer. Returns the exit status of that line: 0 for `legal N`, 1
/// for `forbidden STEP REASON WORD`, 2 for `unreadable LINE NUMBER WORD` and for `object` (the size is above the
/// object's greatest).
///
/// # Errors
///
/// [`StreamFault::File`] if the reader or the writer failed, or if the input has more than 2^31 bytes or takes more
/// than 2^31 reads. [`StreamFault::Memory`] if a request for memory was refused.
///
/// # Cost
///
/// One pass over the text. The time for an event doesn't depend on how long the history is. Memory for a piece of
/// the text, for its longest line and for the queues: it doesn't depend on how long the text is.
pub fn audit_stream<R: Read, W: Write>(
    alloc: Global,
    reader: &mut Device<R>,
    writer: &mut Device<W>,
) -> Result<u8, StreamFault>
    requires reader_works { has_failed reader.old ≡ false }
    requires writer_works { has_failed writer.old ≡ false }

    // The line and its status are the answer to what the reader had.
    ensures answer { IfOk result
        (Answers answer_of (R.remaining (inner_of reader.old)) (W.contents (inner_of writer.old))
        (W.contents (inner_of writer.new))) }
    ensures legal { IfOk result (λ status. IfSome (R.remaining (inner_of reader.old))
        (λ input. (status ≡ 0) ↔ IsLegalText input)) }
    ensures forbidden { IfOk result
        (λ status. IfSome (R.remaining (inner_of reader.old)) (λ input. (status ≡ 1) ↔ IsForbiddenText input)) }
    ensures statuses { IfOk result (λ status. status ≤ 2) }
    ensures outcome { IsStreamOutcome R.remaining reader.old reader.new writer.old writer.new result }
{
    let found = audit_all(alloc, reader)?;
    let answer = answer_to(alloc, found)?;
    put(&answer, writer)
}
