use monk_draw::Span;
use monk_judge::Run;
use monk_logs::LogLine;

/// A run that tells a log, and which of its lines are shown.
#[derive(Clone, Copy)]
pub struct ShownRun<'a> {
    /// The run.
    pub run: &'a Run,
    /// The lines of the log, up to the one that misfits.
    pub lines: &'a [LogLine],
    /// The lines that are shown.
    pub span: Span,
}
