//! The tracer's stream. It reads the text of a play, and writes a line for each of its commands.

ghost use Rattle.std.specs.Prelude.{◌≡◌, ◌⊎◌, false, IfOk, IfSome, ◌↔◌, ℕ, List};
ghost use Rattle.std.specs.Io.KnownBytes.{Appends};
ghost use Rattle.monk_history.specs.Text.{Heading, Device.inner_of, Device.has_failed};
ghost use Rattle.monk_world.specs.declared.command.Command.{Command};
ghost use Rattle.monk_commands.specs.{Streams.IsPassingOn, Traced.IsTraced};
ghost use Rattle.monk_commands.specs.Played.{IsAnswerTo, IsPlayOf, IsPlayText};

use crate::fault::StreamFault;
use crate::input::read_all;
use crate::report::Report;
use crate::reporting::play_text;
use monk_history::Device;
use std::alloc::Global;
use std::io::{Read, Write};

/// Reads all of the reader, plays its commands in order from the start, and writes a line for each
/// of them, with status 0:
///
/// ```text
/// 4 | 1 arrive | arrived 1 1 | t=2 n=1 | data: 1 (buffer of 1: empty) | inner condition 0, ticket 1
/// ```
///
/// The line has its number, the seat and its command, the answer, and how many tickets are drawn (`t`) and not passed
/// on (`n`) after it. Then come the data as numbers and in words, and where each seat is then. The queue of a seat
/// that waits inside follows its place, and then `granted` if the grant that the seat looks for is there. So each
/// line shows where the right to be active is. A command that is refused has its line too, and changes nothing.
///
/// If the reader has no play, the line `unreadable LINE NUMBER WORD` is written with status 2. If the size is above
/// the object's greatest, `object` is written with status 2.
///
/// # Errors
///
/// The errors of [`play_stream`](crate::play_stream). Lines may have been written by then.
///
/// # Cost
///
/// The cost of [`play_stream`](crate::play_stream), and for each command a line with the place of each seat, for
/// which each queue is searched. Memory for 64 KiB of lines and for the queues, in addition to the play's.
pub fn trace_stream<R: Read, W: Write>(
    alloc: Global,
    reader: &mut Device<R>,
    writer: &mut Device<W>,
) -> Result<u8, StreamFault>
    requires reader_works { has_failed reader.old ≡ false }
    requires writer_works { has_failed writer.old ≡ false }

    // What is written, and its status, are the answer to what the reader had.
    ensures answer { IfOk result
        (λ status. IfSome (R.remaining (inner_of reader.old))
        (λ input. IsAnswerTo IsTraced input status
        (Appends (W.contents (inner_of writer.old)) (W.contents (inner_of writer.new))))) }
    // The status is 0 exactly if the text is a play.
    ensures played { IfOk result (λ status. IfSome (R.remaining (inner_of reader.old))
        (λ input. (status ≡ 0) ↔ IsPlayText input)) }
    // For a play the line of each command is written, in order, and nothing else.
    ensures traced { IfOk result
        (λ status. IfSome (R.remaining (inner_of reader.old))
        (λ input. (h : Heading) (budget : ℕ) (commands : List (ℕ × Command)) → IsPlayOf input h budget commands
        → IsTraced h budget commands (Appends (W.contents (inner_of writer.old)) (W.contents (inner_of writer.new))))) }
    ensures statuses { IfOk result (λ status. (status ≡ 0) ⊎ (status ≡ 2)) }
    ensures outcome { IsPassingOn R.remaining reader.old reader.new writer.new result }
{
    let bytes = read_all(alloc, reader)?;
    play_text(alloc, Report::Trace, bytes, writer)
}
