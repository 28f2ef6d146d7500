use super::begins;
use monk_object::{Buffer, Guarded};
use std::test::Fail;

pub(super) fn buffer(rt: &HostRuntime) -> Result<bool, Fail> {
    begins(rt, "buffer")?;
    let buffer = Buffer::make(rt.alloc(), 64)?;
    Ok(buffer.holds(Buffer::HAS_ROOM) && !buffer.holds(Buffer::HAS_ITEM))
}
