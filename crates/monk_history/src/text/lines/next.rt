//! Reads the item of the first line of some bytes.

ghost use Rattle.std.specs.Prelude.{◌≡◌, true, MatchOption};
ghost use Rattle.monk_history.specs.Text.Lines.{IsReadAs, is_unended};

use crate::text::fault::Flaw;
use crate::text::lines::record::Record;
use crate::text::lines::split::split_once;
use crate::text::lines::words::LineWords;

/// Returns the item of the first line of the bytes, or its flaw, and what follows that line. Returns `None` if no
/// line ends in the bytes.
///
/// It looks at no byte after the line, except for those that [`Record::at_front`] looks at. It takes no memory.
#[inline(always)]
pub fn next_item<'a, H, A: Record<H>>(
    header: &H,
    bytes: &'a [u8],
) -> Option<(Result<A, Flaw>, &'a [u8])>
    ensures { MatchOption result (is_unended bytes.entry.now ≡ true)
        (λ r. IsReadAs (A.parse header.now) bytes.entry.now r.0 r.1.now) }
{
    next_item_for::<H, A, A>(header, bytes)
}

/// As [`next_item`], with a copy of the code for each type that a caller names.
#[inline(always)]
pub(crate) fn next_item_for<'a, H, A: Record<H>, Caller>(
    header: &H,
    bytes: &'a [u8],
) -> Option<(Result<A, Flaw>, &'a [u8])>
    ensures { MatchOption result (is_unended bytes.entry.now ≡ true)
        (λ r. IsReadAs (A.parse header.now) bytes.entry.now r.0 r.1.now) }
{
    match A::at_front::<Caller>(header, bytes) {
        Some((item, count)) => Some((Ok(item), &bytes[count..])),
        None => item_by_words(header, bytes),
    }
}

/// Reads any line. The result is taken apart and put together again. So it needs room in memory only here, and not if
/// [`Record::at_front`] read the line.
#[inline(always)]
fn item_by_words<'a, H, A: Record<H>>(
    header: &H,
    bytes: &'a [u8],
) -> Option<(Result<A, Flaw>, &'a [u8])>
    ensures { MatchOption result (is_unended bytes.entry.now ≡ true)
        (λ r. IsReadAs (A.parse header.now) bytes.entry.now r.0 r.1.now) }
{
    let (item, rest) = item_of_words(header, bytes)?;
    Some((item, rest))
}

/// Reads any line by its words.
#[inline(never)]
fn item_of_words<'a, H, A: Record<H>>(
    header: &H,
    bytes: &'a [u8],
) -> Option<(Result<A, Flaw>, &'a [u8])>
    ensures { MatchOption result (is_unended bytes.entry.now ≡ true)
        (λ r. IsReadAs (A.parse header.now) bytes.entry.now r.0 r.1.now) }
{
    let (line, rest) = split_once(bytes, b'\n')?;
    let mut words = LineWords::of(line);
    Some((A::parse(header, &mut words), rest))
}
