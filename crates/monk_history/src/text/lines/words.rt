//! The words of a line, taken from left to right.

ghost use Rattle.std.specs.Prelude.{◌≡◌, ◌∷◌, [], List, ℕ, ◌≤◌, true, false, MatchOption, IfOk, decimal};
ghost use Rattle.std.specs.Option.{option_copied};
ghost use Rattle.monk_history.specs.Text.Words.{Reads, words_of, words_left, is_unbroken, is_next, number_at, literal_at, end_at};

use crate::text::fault::Flaw;
use crate::text::lines::front::{left_behind_number, left_behind_word};
use crate::text::lines::numbers::number_of;
use crate::text::lines::split::split_once;
use std::marker::Model;

/// The words of a line that are not yet taken. Contracts see them as a list.
///
/// A line of no bytes is one empty word. Each call takes at most one word, and copies none.
#[derive(Drop)]
pub struct LineWords<'a> {
    rest: Option<&'a [u8]>,
}

impl<'a> Model for LineWords<'a> {
    ghost Value = { List (List ℕ) };

    ghost view = { λ w. words_left (option_copied w.rest) };
}

impl<'a> LineWords<'a> {
    /// Returns all words of the line, which is given without its byte 10.
    pub fn of(line: &'a [u8]) -> LineWords<'a>
        ensures { result ≡ words_of line.entry.now }
    {
        LineWords { rest: Some(line) }
    }

    /// Takes the next word, if one is left.
    pub fn next(&mut self) -> Option<&'a [u8]>
        ensures { MatchOption result ((self.old ≡ []) × (self.new ≡ [])) (λ w. self.old ≡ w.now ∷ self.new) }
    {
        let bytes = self.rest?;
        match split_once(bytes, b' ') {
            Some((word, rest)) => {
                self.rest = Some(rest);
                Some(word)
            }
            None => {
                self.rest = None;
                Some(bytes)
            }
        }
    }

    /// Takes the next word if it is that word, and otherwise none. Returns whether it did.
    #[inline(always)]
    pub fn takes(&mut self, word: &[u8]) -> bool
        requires { is_unbroken word.now ≡ true }
        ensures is { result ≡ is_next word.now self.old }
        ensures taken { result ≡ true → self.old ≡ word.now ∷ self.new }
        ensures left { result ≡ false → self.old ≡ self.new }
    {
        let Some(line) = self.rest else {
            return false;
        };
        let Some(left) = left_behind_word(line, word) else {
            return false;
        };
        self.rest = left;
        true
    }

    /// Takes the next word if it is a number of a few digits, and otherwise none.
    #[inline(always)]
    fn short_number(&mut self) -> Option<u64>
        ensures { MatchOption result (self.new ≡ self.old) (λ n. self.old ≡ decimal n ∷ self.new) }
    {
        let (number, left) = left_behind_number(self.rest?)?;
        self.rest = left;
        Some(number)
    }

    /// Takes a number from 0 to `most`. Returns [`Flaw::Word`] if no word is left, and [`Flaw::Number`] if the word
    /// is no such number.
    #[tactic(auto, using(crate::proofs::TextLaws::WordReaders::number_again, crate::proofs::TextLaws::WordReaders::number_refused))]
    #[inline(always)]
    pub fn number(&mut self, most: u64) -> Result<u64, Flaw>
        ensures reads { Reads result self.new (number_at most self.old) }
        ensures within { IfOk result (λ n. n ≤ most) }
    {
        if let Some(number) = self.short_number() {
            return if number <= most {
                Ok(number)
            } else {
                Err(Flaw::Number)
            };
        }
        let (number, rest) = any_number(self.rest, most);
        self.rest = rest;
        number
    }

    /// Takes a number from 0 to 255, with the flaws of [`LineWords::number`].
    #[inline(always)]
    pub fn byte(&mut self) -> Result<u8, Flaw>
        ensures { Reads result self.new (number_at 255 self.old) }
    {
        let number = self.number(255)?;
        Ok(number as u8)
    }

    /// Takes that word. Returns [`Flaw::Word`] if the next word is another, or if none is left.
    pub fn literal(&mut self, text: &[u8]) -> Result<(), Flaw>
        ensures { Reads result self.new (literal_at text.now self.old) }
    {
        let word = self.next().ok_or(Flaw::Word)?;
        if word == text {
            Ok(())
        } else {
            Err(Flaw::Word)
        }
    }

    /// Returns [`Flaw::Word`] if a word is left.
    pub fn end(&mut self) -> Result<(), Flaw>
        ensures { Reads result self.new (end_at self.old) }
    {
        match self.next() {
            None => Ok(()),
            Some(_) => Err(Flaw::Word),
        }
    }
}

/// Takes a number of any length from the front of a line, and returns it with what is left of the line.
///
/// It takes the line by value, so callers keep theirs in registers.
#[tactic(auto, unfolding(crate::specs::Text::Words::number_at))]
#[inline(never)]
fn any_number(line: Option<&[u8]>, most: u64) -> (Result<u64, Flaw>, Option<&[u8]>)
    ensures reads { Reads result.0 (words_left (option_copied result.1))
        (number_at most (words_left (option_copied line.entry))) }
    ensures within { IfOk result.0 (λ n. n ≤ most) }
{
    let mut words = LineWords { rest: line };
    let Some(word) = words.next() else {
        return (Err(Flaw::Word), None);
    };
    (number_of(word, most).ok_or(Flaw::Number), words.rest)
}
