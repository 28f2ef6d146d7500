//! What stays the same in a monitor.

use monk_kinds::Rules;
use std::alloc::Global;

/// What stays the same in a monitor while its log is judged.
#[derive(Clone, Copy)]
pub(crate) struct MonitorSetting {
    pub(crate) alloc: Global,
    pub(crate) rules: Rules,
    pub(crate) seats: u8,
    pub(crate) conds: u8,
}
