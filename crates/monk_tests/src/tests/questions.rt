//! The usual questions about a text.

use monk_commands::{FitForm, Question, Task};

/// A question that names only the text.
pub(crate) const ASKED: Question<'static> = Question {
    kind: None,
    means: &[],
    name: "a.log",
    beside: &[],
    has_ended: false,
};

/// Writes the finding in words.
pub(crate) const FIT: Task<'static> = Task::Fit(FitForm::Words, ASKED);

/// Explains the text.
pub(crate) const EXPLAIN: Task<'static> = Task::Explain(ASKED);
