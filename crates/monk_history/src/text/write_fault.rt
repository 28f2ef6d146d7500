use thiserror::Error;

/// The device failed: [`Device::failed`](crate::Device::failed) is true. How much of the text it took isn't known.
#[derive(Clone, Copy, Debug, PartialEq, Eq, Error)]
#[error("the writer failed")]
pub struct WriteFault;
