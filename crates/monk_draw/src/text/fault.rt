//! The mark of the event that is forbidden.

use super::signs::put_times;
use std::alloc::AllocError;

const CAPTION: &str = "forbidden: ";

/// Writes a sign below the column that begins at `at`, and after it why its event is forbidden. If
/// there is no room for the reason, it gets a line of its own.
pub(crate) fn put_fault(
    page: &mut String,
    at: usize,
    width: usize,
    reason: &str,
) -> Result<(), AllocError> {
    let wide = CAPTION.len().saturating_add(reason.len());
    put_times(page, " ", at)?;
    page.push_str("^")?;
    if at.saturating_add(2).saturating_add(wide) <= width {
        page.push_str(" ")?;
    } else {
        page.push_str("\n")?;
        put_times(page, " ", width.saturating_sub(wide).min(at))?;
    }
    page.push_str(CAPTION)?;
    page.push_str(reason)?;
    page.push_str("\n")
}
