//! The last line of a log about a seat or a condition.

ghost use Rattle.std.specs.Prelude.{◌≡◌};
ghost use Rattle.monk_logs.specs.LastLine.{last_line};

use crate::subject::Subject;
use crate::text::line::LogLine;

/// Returns the number of the last line about the subject, counted from 1, or `None` if there is none.
///
/// # Cost
///
/// One pass over the lines.
pub fn last_line(lines: &[LogLine], subject: Subject) -> Option<usize>
    ensures { result ≡ last_line subject lines.now }
{
    let mut last = None;
    let mut number = 0;
    for line in lines {
        number += 1;
        if subject.has(*line) {
            last = Some(number);
        }
    }
    last
}
