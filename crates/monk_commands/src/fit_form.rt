//! How a finding is written.

/// How a finding is written. Of a history it is lines for a reader; as JSON it says that the text is no log.
#[derive(Clone, Copy, Debug, PartialEq, Eq)]
pub enum FitForm {
    /// As a line for a reader.
    Words,
    /// The same, with the name before each line also of a history, because it is one of several texts.
    Named,
    /// As a line of JSON.
    Json,
}
