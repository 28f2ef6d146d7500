//! Who waits on which condition.

ghost use Rattle.std.specs.Prelude.{◌≡◌, ◌+◌, ◌*◌, IfOk, List, length};
ghost use Rattle.monk_logs.specs.declared.text.line.LogLine.{LogLine};
ghost use Rattle.monk_judge.specs.{Hints.AreWaiters, Overtaken.waits_in};

use monk_logs::{LINE_SEATS, LogLine};
use std::alloc::{AllocError, Global};

/// How many conditions a line can name: the numbers from 0 to 255.
const LINE_CONDS: usize = 256;

/// Which seats wait on which condition somewhere in a log.
#[derive(Drop)]
pub(crate) struct Waiters {
    /// For each seat that a line can name, whether it waits on each condition that a line can name.
    table: Vec<bool>,
    ghost sized: { length table.items ≡ 65536 },
}

impl Waiters {
    /// Returns those of a log with these lines.
    pub(crate) fn of(alloc: Global, lines: &[LogLine]) -> Result<Waiters, AllocError>
        ensures { IfOk result (λ w. AreWaiters lines.now w.table.items) }
    {
        let mut table = vec![in alloc; false; LINE_SEATS * LINE_CONDS]?;
        for line in lines {
            if let LogLine::Wait(seat, cond) = *line {
                table[index(seat, cond)] = true;
            }
        }
        Ok(Waiters { table })
    }

    /// Whether the seat waits on the condition.
    pub(crate) fn has(&self, seat: u8, cond: u8) -> bool
        ensures { (log : List LogLine) → AreWaiters log self.now.table.items → result ≡ waits_in log seat cond }
    {
        self.table[index(seat, cond)]
    }
}

/// Returns where the table has that seat and that condition.
fn index(seat: u8, cond: u8) -> usize
    ensures { result ≡ 256 * seat + cond }
{
    LINE_CONDS * usize::from(seat) + usize::from(cond)
}
