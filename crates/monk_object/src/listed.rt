ghost use Rattle.std.specs.Prelude.{◌≡◌, slice_get};

use crate::guarded::Guarded;

/// A guarded object whose state can be read, one number after the other, by code that shows it.
pub trait Listed: Guarded {
    /// Returns number `index` of its state, from 0; `None` after the last. Constant time, no
    /// memory.
    fn number(&self, index: usize) -> Option<u64>
        ensures { result ≡ slice_get (Self.state self.now) index };
}
