//! The lines of a text after its first, read one after the other.

ghost use Rattle.std.specs.Prelude.{◌≡◌, ◌≤◌, ◌+◌, IfOk, IfSome, None, Ok};
ghost use Rattle.monk_history.specs.Limits.{most_lines};
ghost use Rattle.monk_history.specs.Text.Lines.{IsNextItem, items_left, opened_at, lines_of, header_line};

use crate::text::fault::ReadFault;
use crate::text::lines::next::next_item;
use crate::text::lines::record::{Head, Record};
use crate::text::lines::split::split_once;
use crate::text::lines::words::LineWords;
use std::marker::Model;

/// The lines of a text that are not yet read. Contracts see the lines, the number of the first of them, and how many
/// more may be read.
#[derive(Drop)]
pub struct ItemLines<'a> {
    rest: &'a [u8],
    number: u32,
    room: u32,
}

impl<'a> Model for ItemLines<'a> {
    ghost use Rattle.std.specs.Prelude.{◌+◌, ◌≤◌};
    ghost use Rattle.monk_history.specs.Limits.{most_lines};
    ghost use Rattle.monk_history.specs.Text.Lines.{LinesLeft, lines_of};

    ghost Value = { LinesLeft };

    ghost view = { λ l. record { lines = lines_of l.rest.now; number = l.number; room = l.room } };

    ghost invariant = { λ l. l.number + l.room ≤ most_lines + 2 };
}

impl<'a> ItemLines<'a> {
    /// Returns the header of the text, and its other lines. At most `limit` of them may be read.
    ///
    /// A text with no finished line has the fault `END`, or `HEADER` if it is empty.
    #[tactic(auto, unfolding(crate::specs::Text::Lines::opened_at))]
    pub fn open<H: Head>(bytes: &'a [u8], limit: u32) -> Result<(H, ItemLines<'a>), ReadFault>
        requires { limit ≤ most_lines }
        ensures { result ≡ opened_at H.parse limit (lines_of bytes.entry.now) }
    {
        let Some((first, rest)) = split_once(bytes, b'\n') else {
            let number = if bytes.is_empty() {
                ReadFault::HEADER
            } else {
                ReadFault::END
            };
            return Err(ReadFault::at(number, 1));
        };
        let header: H = header_of(first)?;
        let lines = ItemLines {
            rest,
            number: 2,
            room: limit,
        };
        Ok((header, lines))
    }

    /// Returns the same lines once more.
    pub(crate) fn again(&self) -> ItemLines<'a>
        ensures { result ≡ self.now }
    {
        ItemLines {
            rest: self.rest,
            number: self.number,
            room: self.room,
        }
    }

    /// Reads the next line, or returns `None` if the text has ended. After an error the rest isn't specified.
    #[inline(always)]
    pub fn next<H, A: Record<H>>(&mut self, header: &H) -> Result<Option<A>, ReadFault>
        ensures item { IsNextItem result (items_left (A.parse header.now) self.old)
            (items_left (A.parse header.now) self.new) }
        ensures room { IfOk result (λ x. IfSome x (λ _. self.new.room + 1 ≡ self.old.room)) }
        ensures none { result ≡ Ok None → self.new ≡ self.old }
    {
        let Some((item, after)) = next_item(header, self.rest) else {
            return if self.rest.is_empty() {
                Ok(None)
            } else {
                Err(ReadFault::at(ReadFault::END, self.number))
            };
        };
        if self.room == 0 {
            return Err(ReadFault::at(ReadFault::LONG, self.number));
        }
        let item: A = match item {
            Ok(item) => item,
            Err(flaw) => return Err(flaw.at(self.number)),
        };
        self.rest = after;
        self.number += 1;
        self.room -= 1;
        Ok(Some(item))
    }
}

pub(crate) fn header_of<H: Head>(line: &[u8]) -> Result<H, ReadFault>
    ensures { result ≡ header_line H.parse line.now }
{
    let mut words = LineWords::of(line);
    match H::parse(&mut words) {
        Ok(header) => Ok(header),
        Err(_) => Err(ReadFault::at(ReadFault::HEADER, 1)),
    }
}
