//! The player's stream. It reads the text of a play, and writes the text of the history that it leads to.

ghost use Rattle.std.specs.Prelude.{◌≡◌, ◌⊎◌, false, IfOk, IfSome, ◌↔◌, ℕ, List};
ghost use Rattle.std.specs.Io.KnownBytes.{Appends};
ghost use Rattle.monk_history.specs.Text.{Heading, Device.inner_of, Device.has_failed};
ghost use Rattle.monk_world.specs.declared.command.Command.{Command};
ghost use Rattle.monk_commands.specs.Played.{IsAnswerTo, IsPlayOf, IsPlayText, IsPlayed};
ghost use Rattle.monk_commands.specs.Streams.{IsStreamOutcome};

use crate::fault::StreamFault;
use crate::input::read_all;
use crate::report::Report;
use crate::reporting::play_text;
use monk_history::Device;
use std::alloc::Global;
use std::io::{Read, Write};

/// Reads all of the reader, plays its commands in order from the start, and writes the text of the history that they
/// lead to, with status 0. A command that is refused changes nothing, and the play goes on after it.
///
/// If the reader has no play, the line `unreadable LINE NUMBER WORD` is written with status 2. If the size is above
/// the object's greatest, `object` is written with status 2.
///
/// No call of the reader or the writer has failed yet: a device that has failed is of no more use.
///
/// # Errors
///
/// The errors of [`audit_stream`](crate::audit_stream).
///
/// # Cost
///
/// Two passes over the text. One looks for its first fault. The other carries out each command as it is read, in a
/// time that doesn't grow with the history. Memory for the text, and for as many events as the budget leaves to all
/// seats together.
pub fn play_stream<R: Read, W: Write>(
    alloc: Global,
    reader: &mut Device<R>,
    writer: &mut Device<W>,
) -> Result<u8, StreamFault>
    requires reader_works { has_failed reader.old ≡ false }
    requires writer_works { has_failed writer.old ≡ false }

    // What is written, and its status, are the answer to what the reader had.
    ensures answer { IfOk result
        (λ status. IfSome (R.remaining (inner_of reader.old))
        (λ input. IsAnswerTo IsPlayed input status
        (Appends (W.contents (inner_of writer.old)) (W.contents (inner_of writer.new))))) }
    // The status is 0 exactly if the text is a play.
    ensures played { IfOk result (λ status. IfSome (R.remaining (inner_of reader.old))
        (λ input. (status ≡ 0) ↔ IsPlayText input)) }
    // For a play only the text of its history is written, which is legal.
    ensures history { IfOk result
        (λ status. IfSome (R.remaining (inner_of reader.old))
        (λ input. (h : Heading) (budget : ℕ) (commands : List (ℕ × Command)) → IsPlayOf input h budget commands
        → IsPlayed h budget commands (Appends (W.contents (inner_of writer.old)) (W.contents (inner_of writer.new))))) }
    ensures statuses { IfOk result (λ status. (status ≡ 0) ⊎ (status ≡ 2)) }
    ensures outcome { IsStreamOutcome R.remaining reader.old reader.new writer.old writer.new result }
{
    let bytes = read_all(alloc, reader)?;
    play_text(alloc, Report::History, bytes, writer)
}
