/// What is written for a play.
#[derive(Clone, Copy)]
pub(crate) enum Report {
    /// The text of the history that it leads to.
    History,
    /// A line for each of its commands.
    Trace,
}
