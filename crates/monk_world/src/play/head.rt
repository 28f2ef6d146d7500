//! Reads the first line of a play from its words.

ghost use Rattle.monk_history.specs.Text.Words.{Reads};
ghost use Rattle.monk_world.specs.Play.Reading.{play_head_at};

use monk_history::lines::{Flaw, Head, LineWords};
use monk_history::{Header, LEAST_BUDGET, MOST_BUDGET, header_parts};

/// The first line of a play.
#[derive(Clone, Copy)]
pub(crate) struct PlayHead {
    pub(crate) header: Header,
    /// How many events each seat has.
    pub(crate) budget: u32,
}

impl Head for PlayHead {
    ghost use Rattle.monk_history.specs.Text.Words.{Reads};
    ghost use Rattle.monk_world.specs.Play.Reading.{play_head_at};

    ghost parse = { play_head_at };

    fn parse(words: &mut LineWords<'_>) -> Result<PlayHead, Flaw>
        ensures { Reads result words.new (play_head_at words.old) }
    {
        play_head(words)
    }
}

#[tactic(auto, unfolding(crate::specs::Play::Reading::play_head_at))]
fn play_head(words: &mut LineWords<'_>) -> Result<PlayHead, Flaw>
    ensures { Reads result words.new (play_head_at words.old) }
{
    words.literal(b"play")?;
    let version = words.byte()?;
    let header = header_parts(words, version)?;
    let budget = words.number(u64::from(MOST_BUDGET))? as u32;
    words.end()?;
    if budget < LEAST_BUDGET {
        return Err(Flaw::Word);
    }
    Ok(PlayHead { header, budget })
}
