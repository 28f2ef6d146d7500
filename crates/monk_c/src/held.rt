//! How a handle lends what it has.
//!
//! It has a file of its own, because its clause names the row of `MonkSeat`. The file that declares `MonkSeat` can't
//! import that.
ghost use Rattle.std.specs.Prelude.{◌≡◌};
ghost use types.Logic.{sem};
ghost use Rattle.monk_c.specs.Lending.{LendsHeld};

use crate::any_seat::AnySeat;
use crate::handle::MonkSeat;

impl MonkSeat {
    /// Lends what is in its place. When the borrow ends, the handle has what was written there.
    #[inline(always)]
    pub(crate) fn held(&mut self) -> &mut AnySeat
        ensures* writes_back { sem 𝓛 (LendsHeld self.entry result) }
        ensures value { result.now ≡ self.old.has }
    {
        unsafe { &mut *(self.at as *mut AnySeat) }
    }
}
