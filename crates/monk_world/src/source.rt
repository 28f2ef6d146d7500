/// How a seat got the right to be active.
#[derive(Clone, Copy, Debug, PartialEq, Eq)]
pub enum Source {
    /// It drew this ticket and found the monitor free.
    Free(u32),
    /// It waited with this ticket until it was granted.
    Granted(u32),
    /// It waited inside until it was called from a queue.
    Called,
}
