//! Who has the lock.

ghost use Rattle.std.specs.Prelude.{◌≡◌};
ghost use Rattle.monk_judge.specs.Holding.{NamesLastTaking, takes_lock};

use monk_logs::LogLine;

/// Who has the lock, and since when.
#[derive(Clone, Copy, Debug, PartialEq, Eq)]
pub struct Holder {
    /// The seat.
    pub seat: u8,
    /// The line with which it took the lock, counted from 0 after the header.
    pub since: usize,
}

/// Whether a thread takes the lock with that line.
pub(crate) fn takes_lock(line: LogLine) -> bool
    ensures { result ≡ takes_lock line }
{
    match line {
        LogLine::Enter(_) | LogLine::Resume(_) | LogLine::Lapse(_) => true,
        LogLine::Leave(_)
        | LogLine::Wait(..)
        | LogLine::Signal(..)
        | LogLine::Broadcast(..)
        | LogLine::Until(..)
        | LogLine::Act(..) => false,
    }
}

/// Returns the index of the last line with which a thread takes the lock.
pub(crate) fn last_taking(lines: &[LogLine]) -> Option<usize>
    ensures { NamesLastTaking lines.now result }
{
    let mut index = lines.len();
    while index > 0 {
        index -= 1;
        if takes_lock(lines[index]) {
            return Some(index);
        }
    }
    None
}
