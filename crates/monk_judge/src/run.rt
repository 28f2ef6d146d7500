//! The run that the judge takes.

use crate::misfit::Misfit;
use crate::step::Step;

/// The run of a log that the judge takes. No run that tells the lines has fewer wake-ups that nobody sent.
#[derive(Debug, Drop)]
pub struct Run {
    /// Its steps. They tell the lines before the misfit.
    pub steps: Vec<Step>,
    /// The first line that no run tells, or `None` if this run tells them all.
    pub misfit: Option<Misfit>,
}
