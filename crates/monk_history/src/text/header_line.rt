//! Reads a header from the words of its line.

ghost use Rattle.monk_kinds.specs.Names.{kind_word, kinds};
ghost use Rattle.monk_object.specs.Names.{object_word, objects};
ghost use Rattle.monk_history.specs.Text.{Words.Reads, Words.one_of, Reading.header_at, Reading.parts_at};

use crate::text::fault::Flaw;
use crate::text::header::Header;
use crate::text::lines::{Head, LineWords};
use monk_kinds::KindName;
use monk_object::ObjectName;

impl Head for Header {
    ghost use Rattle.monk_history.specs.Text.Words.{Reads};
    ghost use Rattle.monk_history.specs.Text.Reading.{header_at};

    ghost parse = { header_at };

    fn parse(words: &mut LineWords<'_>) -> Result<Header, Flaw>
        ensures { Reads result words.new (header_at words.old) }
    {
        header(words)
    }
}

#[tactic(auto, unfolding(crate::specs::Text::Reading::header_at))]
fn header(words: &mut LineWords<'_>) -> Result<Header, Flaw>
    ensures { Reads result words.new (header_at words.old) }
{
    words.literal(b"monk")?;
    let version = words.byte()?;
    let header = header_parts(words, version)?;
    words.end()?;
    Ok(header)
}

/// Takes the five words `KIND SEATS CONDS OBJECT SIZE`, and leaves the words after them. They come after the version
/// in the first line of each text that has a header.
///
/// Returns [`Flaw::Word`] if one of them is missing, is no name of a kind or of an object, or is a number outside the
/// range of [`Header::new`]. It does so also if there is no such version (they are 1 to 3), or if the version doesn't
/// name the object. Returns [`Flaw::Number`] if a word is no number from 0 to 255. Takes no memory.
#[tactic(auto, unfolding(crate::specs::Text::Reading::parts_at))]
pub fn header_parts(words: &mut LineWords<'_>, version: u8) -> Result<Header, Flaw>
    ensures { Reads result words.new (parts_at version words.old) }
{
    let kind = kind(words)?;
    let seats = words.byte()?;
    let conds = words.byte()?;
    let object = object_part(words)?;
    let size = words.byte()?;
    Header::of_version(version, kind, seats, conds, object, size).ok_or(Flaw::Word)
}

#[tactic(auto, unfolding(crate::specs::Text::Words::one_of))]
fn kind(words: &mut LineWords<'_>) -> Result<KindName, Flaw>
    ensures { Reads result words.new (one_of kind_word kinds words.old) }
{
    let word = words.next().ok_or(Flaw::Word)?;
    KindName::of_text(word).ok_or(Flaw::Word)
}

/// Takes the word of an object, and leaves the words after it.
///
/// Returns [`Flaw::Word`] if there is no word, or if it is no name of an object. Takes no memory.
#[tactic(auto, unfolding(crate::specs::Text::Words::one_of))]
pub fn object_part(words: &mut LineWords<'_>) -> Result<ObjectName, Flaw>
    ensures { Reads result words.new (one_of object_word objects words.old) }
{
    let word = words.next().ok_or(Flaw::Word)?;
    ObjectName::of_text(word).ok_or(Flaw::Word)
}
