/// Where a seat goes after it has handed the right on.
#[derive(Clone, Copy, Debug, PartialEq, Eq)]
pub enum Home {
    /// Outside the monitor: it left.
    Idle,
    /// Inside, parked until it is called: it waits on a condition, as a signaller, or until a predicate holds.
    Inner,
}
