use thiserror::Error;

/// Why two numbers name no window.
#[derive(Clone, Copy, Debug, PartialEq, Eq, Error)]
pub enum WindowFault {
    /// A number is 0.
    #[error("0 is no event: they count from 1")]
    Zero,
    /// The first number is above the last.
    #[error("from {from} to {to}: the first is above the last")]
    Backward { from: usize, to: usize },
    /// There are more events than can be asked for.
    #[error("from {from} to {to}: more than 2000 events")]
    Wide { from: usize, to: usize },
}
