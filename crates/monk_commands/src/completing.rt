//! The completing stream. It reads a log, and writes a legal history that tells it, or why there is none.

ghost use Rattle.std.specs.Prelude.{◌≡◌, ◌≤◌, ◌^◌, ◌↔◌, false, length, IfOk, IfSome, IsTrue, List, string_bytes};
ghost use Rattle.std.specs.Io.KnownBytes.{Appends};
ghost use Rattle.monk_history.specs.declared.event.Event.{Event};
ghost use Rattle.monk_history.specs.Text.{is_writable, Device.inner_of, Device.has_failed};
ghost use Rattle.monk_logs.specs.Log.Reading.{log};
ghost use Rattle.monk_commands.specs.Streams.{IsStreamOutcome, IsWriting};
ghost use Rattle.monk_commands.specs.Completed.{IsAnswerToLog, IsLogAnswer, IsMisfitText, IsOpenText};
ghost use Rattle.monk_commands.specs.Completed.{completed_heading, misfit_answer};

use crate::answer::{LineAnswer, put, too_big, unreadable};
use crate::fault::StreamFault;
use crate::input::read_all;
use crate::recording::put_history;
use monk_audit::AuditFault;
use monk_completion::{Blame, Completion, complete};
use monk_history::{Device, Header};
use monk_kinds::KindName;
use monk_logs::{LogHeader, LogLine, read_log};
use std::alloc::{AllocError, Global};
use std::io::{Read, Write};

/// Returns the header of a history of the kind with the numbers of the log's header, in the version that has every
/// event.
pub(crate) fn header_of(kind: KindName, header: &LogHeader) -> Header
    ensures header { result ≡ completed_heading kind header.now }
    ensures writable { (events : List Event) → IsTrue (is_writable result events) }
{
    let (seats, conds) = (header.seats(), header.conds());
    match Header::new(kind, seats, conds, header.object(), header.size()) {
        Some(header) => header.upgraded(),
        // The numbers in the header of a log are in range.
        None => unreachable!(),
    }
}

fn misfit_answer(
    alloc: Global,
    kind: KindName,
    line: u32,
    blame: Blame,
) -> Result<LineAnswer, AllocError>
    ensures { IfOk result (λ a. (a.status ≡ 1) × (string_bytes a.text ≡ (misfit_answer kind line blame).text)) }
{
    let (kind, number, word) = (kind.as_str(), blame.number(), blame.text());
    let text = format!(in alloc; "{kind} misfit {line} {number} {word}\n")?;
    Ok(LineAnswer { status: 1, text })
}

fn complete_log<W: Write>(
    alloc: Global,
    kind: KindName,
    header: &LogHeader,
    lines: &[LogLine],
    writer: &mut Device<W>,
) -> Result<u8, StreamFault>
    requires works { has_failed writer.old ≡ false }
    requires few { length lines.now ≤ 2 ^ 25 }
    ensures answer { IfOk result
        (λ status. IsLogAnswer kind (log header.now lines.now) status
        (Appends (W.contents (inner_of writer.old)) (W.contents (inner_of writer.new)))) }
    ensures writing { IsWriting writer.old writer.new result }
{
    match complete(alloc, header, lines, kind) {
        Ok(Completion::History(events)) => {
            put_history(&header_of(kind, header), &events, writer)?;
            Ok(0)
        }
        Ok(Completion::Misfit { line, blame }) => {
            put(&misfit_answer(alloc, kind, line, blame)?, writer)
        }
        Err(AuditFault::Object) => put(&too_big(alloc)?, writer),
        Err(AuditFault::Memory) => Err(StreamFault::Memory),
    }
}

fn complete_text<W: Write>(
    alloc: Global,
    kind: KindName,
    bytes: Vec<u8>,
    writer: &mut Device<W>,
) -> Result<u8, StreamFault>
    requires { has_failed writer.old ≡ false }
    ensures answer { IfOk result
        (λ status. IsAnswerToLog kind bytes.items status
        (Appends (W.contents (inner_of writer.old)) (W.contents (inner_of writer.new)))) }
    ensures writing { IsWriting writer.old writer.new result }
{
    match read_log(alloc, &bytes) {
        Ok((header, lines)) => complete_log(alloc, kind, &header, &lines, writer),
        Err(fault) => put(&unreadable(alloc, fault)?, writer),
    }
}

/// Reads all of the reader, the text of a log, and writes the text of a history of a monitor of the kind, with
/// status 0. The history tells the log: a recorder would write down the log for it. It is legal, and its queues are
/// in order of arrival. It is the history of [`complete`], which says how it completes the release with which a log
/// ends. Its text is in version 2, or in version 3 if the log's object is flags.
///
/// If no such history begins with the log, the line `KIND misfit STEP NUMBER WORD` is written with status 1. STEP is
/// the first line of the log with which none does, counted from 1 after the log's first line. NUMBER and WORD say
/// what is to blame ([`Blame`]).
///
/// If the reader has no text of a log, the line `unreadable LINE NUMBER WORD` is written with status 2. If the size
/// is above the object's greatest, `object` is written with status 2.
///
/// # Errors
///
/// The errors of [`audit_stream`](crate::audit_stream).
///
/// # Cost
///
/// One pass over the text, one over its lines, and one over the events. A line takes as long as an event or two of
/// an audit. Memory for the text, for its lines, for the events and for the queues.
pub fn complete_stream<R: Read, W: Write>(
    alloc: Global,
    kind: KindName,
    reader: &mut Device<R>,
    writer: &mut Device<W>,
) -> Result<u8, StreamFault>
    requires reader_works { has_failed reader.old ≡ false }
    requires writer_works { has_failed writer.old ≡ false }

    // What is written, and its status, are the answer to what the reader had. For a log that is open, it is the text
    // of a history that is legal under a monitor of the kind and whose erasure is the log.
    ensures answer { IfOk result
        (λ status. IfSome (R.remaining (inner_of reader.old))
        (λ input. IsAnswerToLog kind input status
        (Appends (W.contents (inner_of writer.old)) (W.contents (inner_of writer.new))))) }
    // The status is 0 exactly if the text is a log with which some legal history begins.
    ensures open { IfOk result (λ status. IfSome (R.remaining (inner_of reader.old))
        (λ input. (status ≡ 0) ↔ IsOpenText kind input)) }
    // The status is 1 exactly if the text is a log with a first line with which none does.
    ensures misfit { IfOk result
        (λ status. IfSome (R.remaining (inner_of reader.old)) (λ input. (status ≡ 1) ↔ IsMisfitText kind input)) }
    ensures statuses { IfOk result (λ status. status ≤ 2) }
    ensures outcome { IsStreamOutcome R.remaining reader.old reader.new writer.old writer.new result }
{
    let bytes = read_all(alloc, reader)?;
    complete_text(alloc, kind, bytes, writer)
}
