//! What is fixed when a hall is made.
use std::snapshot::Snapshot;

/// The object as it was at first, and the hall's numbers.
#[derive(Drop)]
pub struct Setup<T> {
    pub(crate) opening: Snapshot<T>,
    pub(crate) seats: u8,
    pub(crate) conds: u8,
    pub(crate) budget: u32,
}
