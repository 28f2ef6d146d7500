//! What the lines of a text hold.

use crate::text::fault::Flaw;
use crate::text::lines::words::LineWords;

/// What the first line of a text holds.
pub trait Head: Copy {
    ghost use Rattle.std.specs.Prelude.{List};
    ghost use Rattle.monk_history.specs.Text.Words.{Word, Taken, Reads};

    /// What is read from the words of the line.
    ghost parse: { List Word → Taken Self };

    /// Reads it from all the words of the line.
    fn parse(words: &mut LineWords<'_>) -> Result<Self, Flaw>
        ensures { Reads result words.new (parse words.old) };
}

/// What each further line of a text with the header `H` holds.
pub trait Record<H>: Copy {
    ghost use Rattle.std.specs.Prelude.{List, IfSome};
    ghost use Rattle.monk_history.specs.Text.Words.{Word, Taken, Reads};
    ghost use Rattle.monk_history.specs.Text.Lines.{IsAtFront};

    /// What is read from the words of the line under that header. The header may name a version.
    ghost parse: { H → List Word → Taken Self };

    /// Reads it from all the words of the line.
    fn parse(header: &H, words: &mut LineWords<'_>) -> Result<Self, Flaw>
        ensures { Reads result words.new (parse header.now words.old) };

    /// Reads it if its line is at the front of the bytes, and returns how many bytes the line takes with its end. If
    /// the answer is `None`, the line is read by its words. It is for records that can be read faster than that.
    ///
    /// Each caller that names its own type as `Caller` gets a copy of the code. Nothing else depends on it.
    #[inline(always)]
    fn at_front<Caller>(header: &H, bytes: &[u8]) -> Option<(Self, usize)>
        ensures { IfSome result (λ r. IsAtFront (parse header.now) bytes.now r.0 r.1) }
    {
        None
    }
}
