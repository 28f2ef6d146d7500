/// How a member's call ended.
#[derive(Clone, Copy, Debug, PartialEq, Eq)]
pub enum End {
    /// It did what it came for.
    Done,
    /// Its seat had too few events left for what came next. It has left the monitor.
    Tired,
    /// It was stopped before it came. No member returns this: it is for code that calls members in rounds.
    Late,
}
