//! The lines of a text that comes in pieces.

ghost use Rattle.std.specs.Prelude.{◌≡◌, ◌≤◌, ◌+◌, Ok, None, true, IfOk, IfSome, MatchOption};
ghost use Rattle.monk_history.specs.{Limits.most_lines, Text.Lines.is_unended, Text.Pieces.IsHeadOf};
ghost use Rattle.monk_history.specs.{Text.Pieces.IsNextOfPiece, Text.Pieces.items_with, Text.Pieces.piece_left};

use crate::text::fault::ReadFault;
use crate::text::lines::left::header_of;
use crate::text::lines::next::next_item_for;
use crate::text::lines::record::{Head, Record};
use crate::text::lines::split::split_once;
use std::marker::Model;

/// The lines that end in a piece of a text and are not yet read. Contracts see the bytes, the number of their first
/// line, and how many more lines may be read.
///
/// The number of a line is counted from the room that is left, so a line costs only one counter.
#[derive(Drop)]
pub struct PieceLines<'a> {
    /// The number of the first line for which there is no room.
    end: u32,
    rest: &'a [u8],
    room: u32,
}

impl<'a> Model for PieceLines<'a> {
    ghost use Rattle.std.specs.Prelude.{◌+◌, ◌-◌, ◌≤◌};
    ghost use Rattle.monk_history.specs.Limits.{most_lines};
    ghost use Rattle.monk_history.specs.Text.Pieces.{PieceLeft, piece_left};

    ghost Value = { PieceLeft };

    ghost view = { λ l. piece_left l.rest.now (l.end - l.room) l.room };

    ghost invariant = { λ l. (l.room ≤ l.end) × (l.end ≤ most_lines + 2) };
}

impl<'a> PieceLines<'a> {
    /// Returns the lines that end in the bytes. `number` is the number of the first of them in its text, and `room`
    /// is how many may be read.
    pub fn of(bytes: &'a [u8], number: u32, room: u32) -> PieceLines<'a>
        requires { number + room ≤ most_lines + 2 }
        ensures { result ≡ piece_left bytes.entry.now number room }
    {
        PieceLines {
            end: number + room,
            rest: bytes,
            room,
        }
    }

    /// Reads the next line, or returns `None` if no further line ends in the piece. After an error the rest isn't
    /// specified.
    #[inline(always)]
    pub fn next<H, A: Record<H>>(&mut self, header: &H) -> Result<Option<A>, ReadFault>
        ensures item { IsNextOfPiece result (items_with (A.parse header.now) self.old)
            (items_with (A.parse header.now) self.new) }
        ensures counted { IfOk result
            (λ x. IfSome x (λ _. (self.new.number ≡ self.old.number + 1) × (self.new.room + 1 ≡ self.old.room))) }
        ensures none { result ≡ Ok None → (self.new ≡ self.old) × (is_unended self.new.bytes ≡ true) }
    {
        self.next_for::<H, A, A>(header)
    }

    /// As [`PieceLines::next`], for a caller that reads many lines. It names a type of its own, and so gets a copy of
    /// the code, which the compiler then inlines. Nothing else depends on that type.
    #[inline(always)]
    pub fn next_for<H, A: Record<H>, Caller>(&mut self, header: &H) -> Result<Option<A>, ReadFault>
        ensures item { IsNextOfPiece result (items_with (A.parse header.now) self.old)
            (items_with (A.parse header.now) self.new) }
        ensures counted { IfOk result
            (λ x. IfSome x (λ _. (self.new.number ≡ self.old.number + 1) × (self.new.room + 1 ≡ self.old.room))) }
        ensures none { result ≡ Ok None → (self.new ≡ self.old) × (is_unended self.new.bytes ≡ true) }
    {
        let Some((item, after)) = next_item_for::<H, A, Caller>(header, self.rest) else {
            return Ok(None);
        };
        if self.room == 0 {
            return Err(ReadFault::at(ReadFault::LONG, self.end));
        }
        let item: A = match item {
            Ok(item) => item,
            Err(flaw) => return Err(flaw.at(self.end - self.room)),
        };
        self.rest = after;
        self.room -= 1;
        Ok(Some(item))
    }

    /// Returns how many further lines may be read.
    #[inline(always)]
    pub fn room(&self) -> u32
        ensures { result ≡ self.now.room }
    {
        self.room
    }

    /// Returns the bytes that are not yet read.
    pub fn rest(self) -> &'a [u8]
        ensures { result.now ≡ self.entry.bytes }
    {
        self.rest
    }
}

/// Returns the header of the first line of the bytes, or the fault `HEADER`, and what follows that line. Returns
/// `None` if no line ends in the bytes.
pub fn header_at_front<H: Head>(bytes: &[u8]) -> Option<(Result<H, ReadFault>, &[u8])>
    ensures { MatchOption result (is_unended bytes.entry.now ≡ true)
        (λ r. IsHeadOf H.parse bytes.entry.now r.0 r.1.now) }
{
    let (line, rest) = split_once(bytes, b'\n')?;
    Some((header_of(line), rest))
}
