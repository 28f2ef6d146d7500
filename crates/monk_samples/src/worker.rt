use crate::rota::Rota;
use monk_hall::{Hall, Pass};
use monk_kinds::Kind;
use monk_object::Guarded;
use std::sync::atomic::AtomicU8;

/// A seat of a run, and what its thread needs to work.
#[derive(Drop)]
pub(crate) struct Worker<'a, K: Kind, T: Guarded, R, G> {
    pub(crate) pass: Pass<K, T>,
    pub(crate) rt: &'a R,
    pub(crate) hall: &'a Hall<K, T>,
    pub(crate) gate: &'a G,
    pub(crate) rota: Rota,
    /// The start word, which says when to begin.
    pub(crate) start: &'a AtomicU8,
}
