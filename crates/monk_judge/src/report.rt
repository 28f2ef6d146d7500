//! What a log says about its program.

use crate::holder::Holder;
use crate::misfit::Misfit;
use crate::tally::Tally;
use monk_logs::Crossed;

/// What a log says about its program: whether a run of a mutex with condition variables tells it,
/// and what happens in such a run with the fewest wake-ups that nobody sent.
#[derive(Clone, Copy, Debug, PartialEq, Eq)]
pub struct Report {
    /// The first line that no run tells, or `None` if some run tells them all.
    pub misfit: Option<Misfit>,
    /// The counts in the run of the lines before it.
    pub tally: Tally,
    /// Who has the lock at the end of the run.
    pub holder: Option<Holder>,
    /// How many threads sleep at the end of the run.
    pub asleep: u8,
    /// How many threads are woken and not back at the end of the run.
    pub woken: u8,
    /// The first `leave` or `wait`, counted from 0 after the header, that lacks a signal: after it a thread
    /// sleeps on a condition and nobody is woken there, though all predicates given for it hold. No line is
    /// named after a signal of a thread without the lock, because that signal can be on its way to a sleeper.
    pub missed: Option<usize>,
    /// The seats that sleep at the end of the run because a signal crossed them on their way to sleep.
    pub crossed: Option<Crossed>,
}
