//! Reads a text's header and items, or finds its first fault.

ghost use Rattle.std.specs.Prelude.{◌≤◌};
ghost use Rattle.monk_history.specs.Limits.{most_lines};
ghost use Rattle.monk_history.specs.Text.Lines.{Gives, items_view, items_left, lines_view, lines_of, lines_at};

use crate::text::fault::ReadFault;
use crate::text::lines::left::ItemLines;
use crate::text::lines::record::{Head, Record};
use std::alloc::Global;

/// Returns the items of the lines that are left.
fn items_of<H, A: Record<H>>(
    alloc: Global,
    header: &H,
    lines: ItemLines<'_>,
) -> Result<Vec<A>, ReadFault>
    ensures { Gives items_view result (items_left (A.parse header.now) lines.entry) }
{
    let mut lines = lines;
    let mut items = Vec::new(alloc);
    while let Some(item) = lines.next(header)? {
        items.push(item)?;
    }
    Ok(items)
}

/// Returns the header and the items of the text, at most `limit` of them, or the first fault.
///
/// It makes one pass over the bytes. It takes memory only for the items.
pub fn read_lines<H: Head, A: Record<H>>(
    alloc: Global,
    bytes: &[u8],
    limit: u32,
) -> Result<(H, Vec<A>), ReadFault>
    requires { limit ≤ most_lines }
    ensures { Gives lines_view result (lines_at H.parse A.parse limit (lines_of bytes.now)) }
{
    let (header, lines) = ItemLines::open(bytes, limit)?;
    let items = items_of(alloc, &header, lines)?;
    Ok((header, items))
}
