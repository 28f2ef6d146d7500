//! What holds of all reports.

ghost use Rattle.monk_judge.specs.Sleeper.{ToldAsleep, ToldMissed};

/// A thread comes in and waits, and the log ends. It is reported asleep, since no line says that its wait ran out and
/// nobody wakes unasked who doesn't come back. If what it waits for holds already, a signal is missed behind its wait.
pub fn sleeper_is_told()
    ensures asleep { ToldAsleep }
    ensures missed { ToldMissed }
{}
