//! Signals that nobody sent, though somebody should have.

ghost use Rattle.std.specs.Prelude.{◌≡◌};
ghost use Rattle.monk_judge.specs.{Among.Decides, Shown.state_of};
ghost use Rattle.monk_judge.specs.Missed.{AllHold, LacksBehind, LacksSignal, LooksAt, is_from_outside};

use crate::judge::Judge;
use crate::waits_for::WaitsFor;
use monk_logs::LogLine;
use monk_object::Guarded;

/// The first line that lets the lock go although a signal is missing.
#[derive(Clone, Copy)]
pub(crate) struct Missed {
    /// That line, counted from 0 after the header.
    pub(crate) line: Option<usize>,
    /// Whether a thread without the lock has sent a signal.
    pub(crate) from_outside: bool,
}

impl Missed {
    /// Before any line.
    pub(crate) const NOTHING: Missed = Missed {
        line: None,
        from_outside: false,
    };

    /// Looks at the line with that index. The judge has taken it already.
    pub(crate) fn look_at<T: Guarded>(
        &mut self,
        judge: &Judge<T>,
        means: &[WaitsFor],
        index: usize,
        line: LogLine,
    )
        ensures { LooksAt T.meaning means.now line (state_of judge.now) index self.old self.new }
    {
        if self.line.is_none() && !self.from_outside && lacks_behind(judge, means, line) {
            self.line = Some(index);
        }
        self.from_outside = self.from_outside || is_from_outside(judge.lock(), line);
    }
}

/// Whether the line is a signal of a thread that doesn't have the lock.
fn is_from_outside(lock: Option<u8>, line: LogLine) -> bool
    ensures { result ≡ is_from_outside lock line }
{
    match line {
        LogLine::Signal(seat, _) | LogLine::Broadcast(seat, _) => lock != Some(seat),
        LogLine::Enter(_)
        | LogLine::Resume(_)
        | LogLine::Lapse(_)
        | LogLine::Leave(_)
        | LogLine::Wait(..)
        | LogLine::Until(..)
        | LogLine::Act(..) => false,
    }
}

/// Whether a thread let the lock go with the line, and a signal is missing now.
fn lacks_behind<T: Guarded>(judge: &Judge<T>, means: &[WaitsFor], line: LogLine) -> bool
    ensures { Decides result (LacksBehind T.meaning means.now line (state_of judge.now)) }
{
    match line {
        LogLine::Leave(_) | LogLine::Wait(..) => lacks_signal(judge, means),
        LogLine::Enter(_)
        | LogLine::Resume(_)
        | LogLine::Lapse(_)
        | LogLine::Signal(..)
        | LogLine::Broadcast(..)
        | LogLine::Until(..)
        | LogLine::Act(..) => false,
    }
}

/// Whether a signal to some condition is missing.
fn lacks_signal<T: Guarded>(judge: &Judge<T>, means: &[WaitsFor]) -> bool
    ensures { Decides result (LacksSignal T.meaning means.now (state_of judge.now)) }
{
    for waits in means {
        if judge.is_unsignalled(waits.cond) && all_hold(judge, means, waits.cond) {
            return true;
        }
    }
    false
}

/// Whether all predicates hold that are given for the condition.
fn all_hold<T: Guarded>(judge: &Judge<T>, means: &[WaitsFor], cond: u8) -> bool
    ensures { Decides result (AllHold T.meaning means.now judge.now.data_now cond) }
{
    for waits in means {
        if waits.cond == cond && !judge.object_holds(waits.pred) {
            return false;
        }
    }
    true
}
