//! Completes a log to a history of a monitor of one of the ten kinds, with queues in order of arrival.
#![tactic(auto)]

mod blame;
mod blaming;
mod completing;
mod completion;
mod ending;
mod fronts;
mod judging;
mod pending;
mod setting;
mod verdict;

pub use blame::Blame;
pub use completing::complete;
pub use completion::Completion;
pub use verdict::LogVerdict;
