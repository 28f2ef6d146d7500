//! Reads the lines of a log's text one after the other.

ghost use Rattle.std.specs.Prelude.{◌≡◌, ◌≤◌, ◌∷◌, [], List, length, IfOk, MatchOption, None, Ok};
ghost use Rattle.monk_history.specs.Limits.{most_lines};
ghost use Rattle.monk_logs.specs.declared.text.line.LogLine.{LogLine};
ghost use Rattle.monk_logs.specs.Log.{LogHeading, HasLogText, log_text, Reading.log, Reading.log_at};

use crate::text::header::LogHeader;
use crate::text::line::LogLine;
use crate::text::reading::MOST_LOG_LINES;
use monk_history::lines::{CheckedLines, ReadFault};
use std::marker::Model;

/// A log's text without a fault: its header, and the lines that are not yet read. Contracts see both as a log.
///
/// It borrows the bytes and holds no line, so its size is constant.
#[derive(Drop)]
pub struct LogLines<'a> {
    lines: CheckedLines<'a, LogHeader, LogLine>,
}

impl<'a> Model for LogLines<'a> {
    ghost use Rattle.std.specs.Prelude.{length, ◌≤◌};
    ghost use Rattle.monk_history.specs.Limits.{most_lines};
    ghost use Rattle.monk_logs.specs.Log.Reading.{Log, log};

    ghost Value = { Log };

    ghost view = { λ l. log l.lines.0 l.lines.1 };

    ghost invariant = { λ l. length l.lines.1 ≤ most_lines };
}

impl<'a> LogLines<'a> {
    /// Returns the log of the text, or its first fault: what [`read_log`](crate::read_log) returns,
    /// without the fault `MEMORY`.
    ///
    /// # Cost
    ///
    /// One pass over the bytes, which keeps no line and takes no memory.
    pub fn check(bytes: &'a [u8]) -> Result<LogLines<'a>, ReadFault>
        // The bytes are the text of what is found.
        ensures found { IfOk result (λ l. HasLogText l.0 l.1 × (length l.1 ≤ most_lines)
            × (bytes.entry.now ≡ log_text l.0 l.1)) }
        // What the bytes are the text of is found.
        ensures only { (h : LogHeading) (ls : List LogLine) → HasLogText h ls → length ls ≤ most_lines
            → bytes.entry.now ≡ log_text h ls → result ≡ Ok (log h ls) }
        // Says which fault it is.
        ensures exact { result ≡ log_at most_lines bytes.entry.now }
    {
        let lines = CheckedLines::check(bytes, MOST_LOG_LINES)?;
        Ok(LogLines { lines })
    }

    /// Returns the header, which is the first line.
    pub fn header(&self) -> LogHeader
        ensures { result ≡ self.now.0 }
    {
        self.lines.header()
    }

    /// Reads the next line, or returns `None` if all are read. It takes no memory.
    #[inline(always)]
    pub fn next(&mut self) -> Option<LogLine>
        ensures line { MatchOption result (self.old.1 ≡ []) (λ l. self.old.1 ≡ l ∷ self.new.1) }
        ensures header { self.new.0 ≡ self.old.0 }
        ensures none { result ≡ None → self.new ≡ self.old }
    {
        self.lines.next()
    }

    /// Returns the same lines once more. Constant time.
    pub fn again(&self) -> LogLines<'a>
        ensures { result ≡ self.now }
    {
        LogLines {
            lines: self.lines.again(),
        }
    }
}
