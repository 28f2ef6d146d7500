//! The upgrading stream. It reads a history, and writes the same events in a version that has every event.

ghost use Rattle.std.specs.Prelude.{◌≡◌, ◌⊎◌, ◌↔◌, false, IfOk, IfSome, List};
ghost use Rattle.std.specs.Io.KnownBytes.{Appends};
ghost use Rattle.monk_history.specs.declared.event.Event.{Event};
ghost use Rattle.monk_history.specs.Text.{Heading, text, upgraded_heading, Device.inner_of, Device.has_failed};
ghost use Rattle.monk_commands.specs.{Given.IsGiven, Streams.Answers, Streams.IsStreamOutcome, Streams.IsWriting};
ghost use Rattle.monk_commands.specs.Upgraded.{IsHistoryOf, IsHistoryText, IsUpgraded, upgrade_of};

use crate::answer::{put, unreadable};
use crate::fault::StreamFault;
use crate::input::read_all;
use monk_history::lines::CheckedLines;
use monk_history::{Device, Event, Header, MOST_EVENTS, write_lines};
use std::alloc::Global;
use std::io::{Read, Write};

/// Answers a text.
fn upgrade_text<W: Write>(
    alloc: Global,
    bytes: Vec<u8>,
    writer: &mut Device<W>,
) -> Result<u8, StreamFault>
    requires { has_failed writer.old ≡ false }
    ensures answer { IfOk result
        (λ status. IsGiven (upgrade_of bytes.items) status
        (Appends (W.contents (inner_of writer.old)) (W.contents (inner_of writer.new)))) }
    ensures writing { IsWriting writer.old writer.new result }
{
    match CheckedLines::<Header, Event>::check(&bytes, MOST_EVENTS) {
        Ok(lines) => match write_lines(&lines.header().upgraded(), lines, writer) {
            Ok(()) => Ok(0),
            Err(_) => Err(StreamFault::File),
        },
        Err(fault) => put(&unreadable(alloc, fault)?, writer),
    }
}

/// Reads all of the reader and writes the text of the same events with status 0. A text of version 1 is written in
/// version 2, another as it is. The size and whether the history is legal aren't judged.
///
/// If the reader has no text of a history, the line `unreadable LINE NUMBER WORD` is written with status 2.
///
/// No call of the reader or the writer has failed yet: a device that has failed is of no more use.
///
/// # Errors
///
/// The errors of [`audit_stream`](crate::audit_stream).
///
/// # Cost
///
/// Two passes over the text: one that looks for its first fault, and one that writes each event as
/// it is read. Memory for the text alone.
pub fn upgrade_stream<R: Read, W: Write>(
    alloc: Global,
    reader: &mut Device<R>,
    writer: &mut Device<W>,
) -> Result<u8, StreamFault>
    requires reader_works { has_failed reader.old ≡ false }
    requires writer_works { has_failed writer.old ≡ false }

    // What is written, and its status, are the answer to what the reader had.
    ensures answer { IfOk result
        (Answers upgrade_of (R.remaining (inner_of reader.old)) (W.contents (inner_of writer.old))
        (W.contents (inner_of writer.new))) }
    // The status is 0 exactly if the text is a history.
    ensures histories { IfOk result
        (λ status. IfSome (R.remaining (inner_of reader.old)) (λ input. (status ≡ 0) ↔ IsHistoryText input)) }
    // For a history the text of the upgraded header and of the events read is written.
    ensures upgraded { IfOk result
        (λ status. IfSome (R.remaining (inner_of reader.old))
        (λ input. (h : Heading) (events : List Event) → IsHistoryOf input h events
        → Appends (W.contents (inner_of writer.old)) (W.contents (inner_of writer.new))
        (text (upgraded_heading h) events))) }
    // If what is written for a history is read again, it is written unchanged.
    ensures again { IfOk result
        (λ status. status ≡ 0
        → IsUpgraded (Appends (W.contents (inner_of writer.old)) (W.contents (inner_of writer.new)))) }
    ensures statuses { IfOk result (λ status. (status ≡ 0) ⊎ (status ≡ 2)) }
    ensures outcome { IsStreamOutcome R.remaining reader.old reader.new writer.old writer.new result }
{
    let bytes = read_all(alloc, reader)?;
    upgrade_text(alloc, bytes, writer)
}
