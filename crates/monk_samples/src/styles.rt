//! How each mode pauses and goes out, if that takes more than one call.

pub(crate) mod automatic;
pub(crate) mod conditional;
pub(crate) mod explicit;
mod going_on;
pub(crate) mod passing;
pub(crate) mod waking;
