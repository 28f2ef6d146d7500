//! The header and the lines of a log, read from its text, or the text's first fault.

ghost use Rattle.std.specs.Prelude.{◌≡◌, ◌≤◌, List, length, IfOk, Ok};
ghost use Rattle.monk_history.specs.{Limits.most_lines, Text.Lines.Gives};
ghost use Rattle.monk_logs.specs.{declared.text.line.LogLine.LogLine, Log.LogHeading, Log.HasLogText, Log.log_text};
ghost use Rattle.monk_logs.specs.{Log.Laws.OneLogEach, Log.Reading.log, Log.Reading.log_view, Log.Reading.log_at};

use crate::text::header::LogHeader;
use crate::text::line::LogLine;
use monk_history::MOST_LINES;
use monk_history::lines::{ReadFault, read_lines};
use std::alloc::Global;

/// The most lines of a log after its first: 2^25.
pub const MOST_LOG_LINES: u32 = MOST_LINES;

/// Returns the header and the lines of the log, or the first fault of its text.
///
/// Each line ends with one byte 10, and exactly one byte 32 separates the words of a line. The first line is
/// `log VERSION SEATS CONDS OBJECT SIZE`; after the version come the same words as after the kind in a
/// history's header. The version is 2 if the object is flags, else 1. Each further line is one of
///
/// - `enter SEAT`, `resume SEAT`, `lapse SEAT`, `leave SEAT`;
/// - `wait SEAT COND`, `signal SEAT COND`, `broadcast SEAT COND`, `until SEAT PRED`;
/// - `act SEAT CODE ARG REPLY`.
///
/// A seat, a code, a condition and a predicate are 0 to 255, an argument is 0 to 2^32 - 1, a reply
/// 0 to 2^64 - 1. Whether the monitor has them isn't tested here.
///
/// # Errors
///
/// The first line with a fault decides, and within a line the first word:
///
/// | Fault | Line | Where |
/// |---|---|---|
/// | [`ReadFault::HEADER`] | 1 | the text is empty, or its finished first line is no first line of a log |
/// | [`ReadFault::WORD`] | its own | a word that may not stand there, a missing word, or one too many |
/// | [`ReadFault::NUMBER`] | its own | no decimal number, a zero in front of other digits, or one that is too great |
/// | [`ReadFault::END`] | the last | the last line has no byte 10, whatever it holds |
/// | [`ReadFault::LONG`] | 2^25 + 2 | that line is finished, whatever it holds |
/// | [`ReadFault::MEMORY`] | 0 | a request for memory for the list of lines was refused |
///
/// # Cost
///
/// One pass over the bytes. Memory is taken for the list of lines alone, up to twice its length while it grows.
pub fn read_log(alloc: Global, bytes: &[u8]) -> Result<(LogHeader, Vec<LogLine>), ReadFault>
    // The bytes are the text of what is read.
    ensures found { IfOk result (λ r. HasLogText r.0 r.1.items × (length r.1.items ≤ most_lines)
        × (bytes.now ≡ log_text r.0 r.1.items)) }
    // What the bytes are the text of is read, unless memory runs out.
    ensures only { (h : LogHeading) (ls : List LogLine) → HasLogText h ls → length ls ≤ most_lines
        → bytes.now ≡ log_text h ls → Gives log_view result (Ok (log h ls)) }
    // Says which fault it is.
    ensures exact { Gives log_view result (log_at most_lines bytes.now) }
{
    read_lines(alloc, bytes, MOST_LOG_LINES)
}

/// A law: if two logs differ in their headers or lines, their texts differ. It does nothing.
pub fn one_log_each()
    ensures { OneLogEach }
{}
