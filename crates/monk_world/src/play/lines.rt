//! The commands of a play's text, read one after the other.

ghost use Rattle.std.specs.Prelude.{◌≡◌, ◌≤◌, ◌∷◌, [], ℕ, List, length, IfOk, MatchOption, None, Ok};
ghost use Rattle.monk_history.specs.{Limits.most_lines, Text.Heading};
ghost use Rattle.monk_world.specs.declared.command.Command.{Command};
ghost use Rattle.monk_world.specs.Play.{HasPlayText, playtext, Reading.play, Reading.play_at};

use crate::command::Command;
use crate::play::head::PlayHead;
use crate::play::reading::MOST_COMMANDS;
use monk_history::Header;
use monk_history::lines::{CheckedLines, ReadFault};
use std::marker::Model;

/// A play's text without a fault: its header, the budget of each seat, and the commands that are not yet read.
/// Contracts see all three as a play.
///
/// It borrows the bytes and holds no command, so its size is constant.
#[derive(Drop)]
pub struct PlayLines<'a> {
    lines: CheckedLines<'a, PlayHead, (u8, Command)>,
}

impl<'a> Model for PlayLines<'a> {
    ghost use Rattle.monk_world.specs.Play.Reading.{Play, play};

    ghost Value = { Play };

    ghost view = { λ p. play p.lines.0.header p.lines.0.budget p.lines.1 };
}

impl<'a> PlayLines<'a> {
    /// Returns the play of the text, or its first fault. The answer is that of [`read_play`](crate::read_play),
    /// without the fault `MEMORY`.
    ///
    /// It makes one pass over the bytes, keeps no command and takes no memory.
    pub fn check(bytes: &'a [u8]) -> Result<PlayLines<'a>, ReadFault>
        // What is found has this text.
        ensures found { IfOk result (λ p. HasPlayText p.0 p.1 p.2 × (length p.2 ≤ most_lines)
            × (bytes.entry.now ≡ playtext p.0 p.1 p.2)) }
        // What has a text is found in it.
        ensures only { (h : Heading) (budget : ℕ) (cs : List (ℕ × Command)) → HasPlayText h budget cs
            → length cs ≤ most_lines → bytes.entry.now ≡ playtext h budget cs → result ≡ Ok (play h budget cs) }
        // Which fault it is.
        ensures exact { result ≡ play_at most_lines bytes.entry.now }
    {
        let lines = CheckedLines::check(bytes, MOST_COMMANDS)?;
        Ok(PlayLines { lines })
    }

    /// Returns the first line without the budget.
    pub fn header(&self) -> Header
        ensures { result ≡ self.now.0 }
    {
        self.lines.header().header
    }

    /// Returns how many events each seat has.
    pub fn budget(&self) -> u32
        ensures { result ≡ self.now.1 }
    {
        self.lines.header().budget
    }

    /// Reads the next command, with its seat, or returns `None` if all are read. It takes no memory.
    pub fn next(&mut self) -> Option<(u8, Command)>
        ensures command { MatchOption result (self.old.2 ≡ []) (λ c. self.old.2 ≡ c ∷ self.new.2) }
        ensures header { (self.new.0 ≡ self.old.0) × (self.new.1 ≡ self.old.1) }
        ensures none { result ≡ None → self.new ≡ self.old }
    {
        self.lines.next()
    }
}
