//! Reads the header, the budget and the commands of a play's text, or finds its first fault.

ghost use Rattle.std.specs.Prelude.{◌≡◌, ◌≤◌, ℕ, List, length, IfOk, Ok};
ghost use Rattle.monk_history.specs.{Limits.most_lines, Text.Heading, Text.Lines.Gives};
ghost use Rattle.monk_world.specs.declared.command.Command.{Command};
ghost use Rattle.monk_world.specs.Play.{HasPlayText, playtext, Laws.OnePlayEach};
ghost use Rattle.monk_world.specs.Play.Reading.{play, play_view, play_at};

use crate::command::Command;
use crate::play::head::PlayHead;
use monk_history::lines::{ReadFault, read_lines};
use monk_history::{Header, MOST_LINES};
use std::alloc::Global;

/// The most commands of a play: 2^25.
pub const MOST_COMMANDS: u32 = MOST_LINES;

/// Returns the header, the budget of each seat and the commands of the play, each with its seat, or the first fault.
///
/// Each line ends in one byte 10, and exactly one byte 32 separates the words of a line. The first line is
/// `play VERSION KIND SEATS CONDS OBJECT SIZE BUDGET`. It has the parts of the header of a history of that version,
/// and a budget from [`monk_history::LEAST_BUDGET`] to [`monk_history::MOST_BUDGET`]. Each further line is a seat and
/// an action, which is one of
///
/// - `arrive`, `look`, `out`, `peek`, `drop`, `grant`;
/// - `act CODE ARG`;
/// - `leave PICK`, `wait COND PICK`, `signal COND PICK`, `signal-leave COND PICK`, `until PRED PICK`, where PICK is
/// `entry`, `waiter` or `signaller`;
/// - from version 2 on: `signal-all COND`, `signal-wait COND COND PICK`.
///
/// A seat, a code, a condition and a predicate are 0 to 255, and an argument 0 to 2^32 - 1. Whether the header's
/// monitor has them isn't tested here. The first line with a fault decides, and within a line the first word:
///
/// | Fault | Line | When |
/// |---|---|---|
/// | [`ReadFault::HEADER`] | 1 | the text is empty, or its first line is finished and is no first line of a play |
/// | [`ReadFault::WORD`] | its own | a word that may not be there, a missing word, or one too many |
/// | [`ReadFault::NUMBER`] | its own | no decimal number, a zero in front of other digits, or one that is too great |
/// | [`ReadFault::END`] | the last | the last line has no byte 10, whatever it holds |
/// | [`ReadFault::LONG`] | 2^25 + 2 | that line is finished, whatever it holds |
/// | [`ReadFault::MEMORY`] | 0 | a request for memory for the list of commands was refused |
///
/// It makes one pass over the bytes. Memory is taken only for the list of commands, up to twice that while it grows.
pub fn read_play(
    alloc: Global,
    bytes: &[u8],
) -> Result<(Header, u32, Vec<(u8, Command)>), ReadFault>
    // What is read has this text.
    ensures found { IfOk result (λ r. HasPlayText r.0 r.1 r.2.items × (length r.2.items ≤ most_lines)
        × (bytes.now ≡ playtext r.0 r.1 r.2.items)) }
    // What has a text is read from it, unless memory runs out.
    ensures only { (h : Heading) (budget : ℕ) (cs : List (ℕ × Command)) → HasPlayText h budget cs
        → length cs ≤ most_lines → bytes.now ≡ playtext h budget cs
        → Gives play_view result (Ok (play h budget cs)) }
    // Which fault it is.
    ensures exact { Gives play_view result (play_at most_lines bytes.now) }
{
    let (head, commands): (PlayHead, Vec<(u8, Command)>) = read_lines(alloc, bytes, MOST_COMMANDS)?;
    Ok((head.header, head.budget, commands))
}

/// A law: two texts differ if the headers, the budgets or the commands of their plays do. It does nothing.
pub fn one_play_each()
    ensures { OnePlayEach }
{}
