//! How a wait ends.

ghost use Rattle.std.specs.Prelude.{◌≡◌, ◌≤◌, ℕ, true, false};
ghost use Rattle.monk_judge.specs.Ends.{ResumesBy, is_resume, runs_out};
ghost use Rattle.monk_logs.specs.Log.{is_lapse};

use monk_logs::LogLine;

/// How a wait ends, by the lines after it.
#[derive(Clone, Copy, Debug, PartialEq, Eq)]
pub enum WaitEnd {
    /// Its seat comes back by a `resume` in that line. The first line after the header is line 1.
    Resumes(u32),
    /// It runs out: the next line of its seat is a `lapse`.
    RunsOut,
    /// No line says how: the log ends first, or the next line of its seat is another one.
    Never,
}

impl WaitEnd {
    /// Returns how a wait ends if `line` is the next line of its seat. `number` is that line's number.
    pub(crate) fn by(line: LogLine, number: u32) -> WaitEnd
        ensures lapses { runs_out result ≡ is_lapse line }
        ensures by { is_resume line ≡ true → (n : ℕ) → number ≤ n → ResumesBy result n }
        ensures within { (n : ℕ) → ResumesBy result n → (is_resume line ≡ true) × (number ≤ n) }
    {
        match line {
            LogLine::Resume(_) => WaitEnd::Resumes(number),
            LogLine::Lapse(_) => WaitEnd::RunsOut,
            LogLine::Enter(_)
            | LogLine::Leave(_)
            | LogLine::Wait(..)
            | LogLine::Signal(..)
            | LogLine::Broadcast(..)
            | LogLine::Until(..)
            | LogLine::Act(..) => WaitEnd::Never,
        }
    }

    /// Whether this wait ends by a `resume`, and the other by a later one or by none.
    pub(crate) fn is_before(self, other: WaitEnd) -> bool
        ensures before { result ≡ true → (n : ℕ) → ResumesBy other n → ResumesBy self n }
        ensures strictly { result ≡ true → ((n : ℕ) → ResumesBy self n → ResumesBy other n) → ⊥ }
        ensures not_before { result ≡ false → (n : ℕ) → ResumesBy self n → ResumesBy other n }
    {
        match self {
            WaitEnd::Resumes(mine) => match other {
                WaitEnd::Resumes(others) => mine < others,
                WaitEnd::RunsOut | WaitEnd::Never => true,
            },
            WaitEnd::RunsOut | WaitEnd::Never => false,
        }
    }
}
