use crate::active::Active;
use crate::hall::Hall;
use monk_kinds::Kind;
use monk_object::Guarded;

/// A hall that goes on, and the active seat that wanted to end it. Somebody still waits.
pub struct Busy<K: Kind, T: Guarded> {
    pub hall: Hall<K, T>,
    pub active: Active<K, T>,
}
