//! A log that was read, and whose object has a size in range.

ghost use Rattle.std.specs.Prelude.{◌≤◌, ◌^◌, length};
ghost use Rattle.monk_object.specs.Names.{most};

use monk_logs::{LogHeader, LogLine};

/// A log that was read, and whose size is at most the greatest of its object.
#[derive(Clone, Copy)]
pub(crate) struct FittingLog<'a> {
    pub(crate) header: &'a LogHeader,
    pub(crate) lines: &'a [LogLine],
    ghost few: { length lines.now ≤ 2 ^ 25 },
    ghost fits: { header.now.size ≤ most header.now.object },
}
