//! How a finding is written.

/// How a finding is written.
#[derive(Clone, Copy)]
pub(crate) enum LogView {
    /// In one line for a reader and for `grep`.
    Line,
    /// In one line of JSON.
    Json,
    /// In that line, and sentences after it.
    Explanation,
}
