//! Marks between which a test takes no memory: `checks/fail_alloc` counts the requests at each.

use std::test::Fail;

/// From here on the test asks for no memory.
pub(crate) fn from_here(rt: &HostRuntime) -> Result<(), Fail> {
    println!(rt; "no memory from here")?;
    Ok(())
}

/// Up to here it has asked for none.
pub(crate) fn up_to_here(rt: &HostRuntime) -> Result<(), Fail> {
    println!(rt; "no memory up to here")?;
    Ok(())
}

/// Up to here it has asked for none, and each answer was the right one.
pub(crate) fn well_up_to_here(rt: &HostRuntime, well: bool) -> Result<(), Fail> {
    up_to_here(rt)?;
    if !well {
        return Err("another answer")?;
    }
    Ok(())
}
