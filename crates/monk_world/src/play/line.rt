//! Reads a command of a seat from the words of its line.

ghost use Rattle.std.specs.Prelude.{◌≡◌};
ghost use Rattle.monk_kinds.specs.Names.{with_text};
ghost use Rattle.monk_history.specs.Text.Words.{Reads, one_of};
ghost use Rattle.monk_world.specs.Play.{pick_word};
ghost use Rattle.monk_world.specs.Play.Reading.{play_verb_word, play_verbs_of, picks, op_at, cond_pick_at, action_after, command_at};

use crate::command::Command;
use crate::play::head::PlayHead;
use crate::play::verb::CommandVerb;
use monk_history::lines::{Flaw, LineWords, Record};
use monk_kinds::Pick;
use monk_object::Op;

impl Record<PlayHead> for (u8, Command) {
    ghost use Rattle.monk_history.specs.Text.Words.{Reads};
    ghost use Rattle.monk_world.specs.Play.Reading.{command_under};

    ghost parse = { command_under };

    fn parse(head: &PlayHead, words: &mut LineWords<'_>) -> Result<(u8, Command), Flaw>
        ensures { Reads result words.new (command_under head.now words.old) }
    {
        seat_command(words, head.header.version())
    }
}

#[tactic(auto, unfolding(crate::specs::Play::Reading::command_at))]
fn seat_command(words: &mut LineWords<'_>, version: u8) -> Result<(u8, Command), Flaw>
    ensures { Reads result words.new (command_at version words.old) }
{
    let seat = words.byte()?;
    let verb = verb(words, version)?;
    let command = action_after(words, verb)?;
    words.end()?;
    Ok((seat, command))
}

#[tactic(auto, unfolding(crate::specs::Play::Reading::action_after))]
fn action_after(words: &mut LineWords<'_>, verb: CommandVerb) -> Result<Command, Flaw>
    ensures { Reads result words.new (action_after verb words.old) }
{
    match verb {
        CommandVerb::Arrive => Ok(Command::Arrive),
        CommandVerb::Look => Ok(Command::Look),
        CommandVerb::Out => Ok(Command::Out),
        CommandVerb::Peek => Ok(Command::Peek),
        CommandVerb::Drop => Ok(Command::Drop),
        CommandVerb::Grant => Ok(Command::Grant),
        CommandVerb::Act => Ok(Command::Act(op(words)?)),
        CommandVerb::Leave => Ok(Command::Leave(pick(words)?)),
        CommandVerb::Wait => {
            let (cond, pick) = cond_pick(words)?;
            Ok(Command::Wait(cond, pick))
        }
        CommandVerb::Signal => {
            let (cond, pick) = cond_pick(words)?;
            Ok(Command::Signal(cond, pick))
        }
        CommandVerb::SignalLeave => {
            let (cond, pick) = cond_pick(words)?;
            Ok(Command::SignalLeave(cond, pick))
        }
        CommandVerb::Until => {
            let (pred, pick) = cond_pick(words)?;
            Ok(Command::Until(pred, pick))
        }
        CommandVerb::SignalAll => Ok(Command::SignalAll(words.byte()?)),
        CommandVerb::SignalWait => {
            let cond = words.byte()?;
            let (wait_cond, pick) = cond_pick(words)?;
            Ok(Command::SignalWait(cond, wait_cond, pick))
        }
    }
}

/// Reads a code and an argument.
#[tactic(auto, unfolding(crate::specs::Play::Reading::op_at))]
fn op(words: &mut LineWords<'_>) -> Result<Op, Flaw>
    ensures { Reads result words.new (op_at words.old) }
{
    let code = words.byte()?;
    let arg = words.number(u64::from(u32::MAX))? as u32;
    Ok(Op { code, arg })
}

/// Reads a condition or a predicate, and a wish.
#[tactic(auto, unfolding(crate::specs::Play::Reading::cond_pick_at))]
fn cond_pick(words: &mut LineWords<'_>) -> Result<(u8, Pick), Flaw>
    ensures { Reads result words.new (cond_pick_at words.old) }
{
    let cond = words.byte()?;
    let pick = pick(words)?;
    Ok((cond, pick))
}

#[tactic(auto, unfolding(monk_history::specs::Text::Words::one_of))]
fn pick(words: &mut LineWords<'_>) -> Result<Pick, Flaw>
    ensures { Reads result words.new (one_of pick_word picks words.old) }
{
    let word = words.next().ok_or(Flaw::Word)?;
    pick_of_text(word).ok_or(Flaw::Word)
}

fn pick_of_text(word: &[u8]) -> Option<Pick>
    ensures { result ≡ with_text pick_word picks word.now }
{
    if word == b"entry".as_slice() {
        Some(Pick::Entry)
    } else if word == b"waiter".as_slice() {
        Some(Pick::Waiter)
    } else if word == b"signaller".as_slice() {
        Some(Pick::Signaller)
    } else {
        None
    }
}

#[tactic(auto, unfolding(monk_history::specs::Text::Words::one_of))]
fn verb(words: &mut LineWords<'_>, version: u8) -> Result<CommandVerb, Flaw>
    ensures { Reads result words.new (one_of play_verb_word (play_verbs_of version) words.old) }
{
    let word = words.next().ok_or(Flaw::Word)?;
    CommandVerb::of_version(word, version).ok_or(Flaw::Word)
}
