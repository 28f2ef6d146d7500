//! How each wait ends, from the lines after it.

ghost use Rattle.std.specs.Prelude.{◌≤◌, IfOk, length};
ghost use Rattle.monk_history.specs.Limits.{most_lines};
ghost use Rattle.monk_judge.specs.Ends.{AreEnds};

use crate::wait_end::WaitEnd;
use monk_logs::{LINE_SEATS, LogLine};
use std::alloc::{AllocError, Global};

/// Returns for each line how a wait of its seat there would end, whatever the line is: by what the seat's next line
/// says. There may be at most 2^25 lines, as `monk_logs::read_log` gives them.
///
/// # Errors
///
/// A request for memory was refused. It takes 8 bytes for each line, at once.
///
/// # Cost
///
/// One pass, from the last line to the first.
pub fn look_ahead(alloc: Global, lines: &[LogLine]) -> Result<Vec<WaitEnd>, AllocError>
    requires { length lines.now ≤ most_lines }
    ensures { IfOk result (λ v. AreEnds v.items lines.now) }
{
    let mut ends = vec![in alloc; WaitEnd::Never; lines.len()]?;
    let mut next = [WaitEnd::Never; LINE_SEATS];
    let mut index = lines.len();
    while index > 0 {
        let number = index as u32;
        index -= 1;
        let line = lines[index];
        let seat = usize::from(line.seat());
        ends[index] = next[seat];
        next[seat] = WaitEnd::by(line, number);
    }
    Ok(ends)
}
