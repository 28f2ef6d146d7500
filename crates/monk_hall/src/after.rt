use crate::active::Active;
use crate::parked::Parked;
use monk_kinds::Kind;
use monk_object::Guarded;

/// A seat after a call that may let it go on: still active, or parked inside.
pub enum After<K: Kind, T: Guarded> {
    /// It goes on.
    Active(Active<K, T>),
    /// It waits inside until it is called.
    Parked(Parked<K, T>),
}
