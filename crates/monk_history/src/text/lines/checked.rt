//! The items of a text that was found to have no fault, read one after the other.

ghost use Rattle.std.specs.Prelude.{◌≡◌, ◌≤◌, ◌∷◌, [], Err, IfErr, MatchOption, None, OnOk};
ghost use Rattle.monk_history.specs.Limits.{most_lines};
ghost use Rattle.monk_history.specs.Text.Lines.{AreSound, items_left, lines_at, lines_of};

use crate::text::fault::ReadFault;
use crate::text::lines::left::ItemLines;
use crate::text::lines::record::{Head, Record};
use std::marker::{Model, PhantomData};

/// A text without a fault: its header, and the items that are not yet read. Contracts see both.
///
/// It borrows the bytes and holds no item, so its size is constant.
#[derive(Drop)]
pub struct CheckedLines<'a, H: Head, A: Record<H>> {
    header: H,
    lines: ItemLines<'a>,
    item: PhantomData<A>,
}

impl<'a, H: Head, A: Record<H>> Model for CheckedLines<'a, H, A> {
    ghost use Rattle.std.specs.Prelude.{List};
    ghost use Rattle.monk_history.specs.Text.Lines.{AreSound, items_left, items_or_none};

    ghost Value = { H × List A };

    ghost view = { λ l. (l.header, items_or_none (items_left (A.parse l.header) l.lines)) };

    ghost invariant = { λ l. AreSound (items_left (A.parse l.header) l.lines) };
}

impl<'a, H: Head, A: Record<H>> CheckedLines<'a, H, A> {
    /// Checks the text: its header and items, at most `limit` of them, or its first fault. The answer is that of
    /// [`read_lines`](crate::lines::read_lines), without the fault `MEMORY`.
    ///
    /// It makes one pass over the bytes, keeps no item and takes no memory.
    pub fn check(bytes: &'a [u8], limit: u32) -> Result<CheckedLines<'a, H, A>, ReadFault>
        requires { limit ≤ most_lines }
        ensures { result ≡ lines_at H.parse A.parse limit (lines_of bytes.entry.now) }
    {
        let (header, lines) = ItemLines::open(bytes, limit)?;
        check_items::<H, A>(&header, lines.again())?;
        Ok(CheckedLines {
            header,
            lines,
            item: PhantomData,
        })
    }

    /// Returns the header.
    pub fn header(&self) -> H
        ensures { result ≡ self.now.0 }
    {
        self.header
    }

    /// Returns the same items once more, in constant time.
    pub fn again(&self) -> CheckedLines<'a, H, A>
        ensures { result ≡ self.now }
    {
        CheckedLines {
            header: self.header,
            lines: self.lines.again(),
            item: PhantomData,
        }
    }

    /// Reads the next item, or returns `None` if all are read. It takes no memory.
    #[inline(always)]
    pub fn next(&mut self) -> Option<A>
        ensures item { MatchOption result (self.old.1 ≡ []) (λ x. self.old.1 ≡ x ∷ self.new.1) }
        ensures header { self.new.0 ≡ self.old.0 }
        ensures none { result ≡ None → self.new ≡ self.old }
    {
        match self.lines.next(&self.header) {
            Ok(item) => item,
            // The check found each line right.
            Err(_) => unreachable!(),
        }
    }
}

/// Reads the lines that are left, and returns the first fault.
#[tactic(auto, using(crate::proofs::TextLaws::LineSteps::behind_one))]
fn check_items<H, A: Record<H>>(header: &H, lines: ItemLines<'_>) -> Result<(), ReadFault>
    ensures ok { OnOk result (AreSound (items_left (A.parse header.now) lines.entry)) }
    ensures err { IfErr result (λ f. items_left (A.parse header.now) lines.entry ≡ Err f) }
{
    let mut lines = lines;
    while lines.next::<H, A>(header)?.is_some() {}
    Ok(())
}
