//! A history that was read, and whose object has a size in range.

ghost use Rattle.std.specs.Prelude.{◌≤◌, ◌^◌, length};
ghost use Rattle.monk_object.specs.Names.{most};

use monk_history::{Event, Header};

/// A history that was read, and whose size is at most the greatest of its object.
#[derive(Clone, Copy)]
pub(crate) struct FittingHistory<'a> {
    pub(crate) header: &'a Header,
    pub(crate) events: &'a [Event],
    ghost few: { length events.now ≤ 2 ^ 25 },
    ghost fits: { header.now.size ≤ most header.now.object },
}
