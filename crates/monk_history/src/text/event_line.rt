//! Reads an event from the words of its line.

ghost use Rattle.std.specs.Prelude.{◌-◌, ◌≤◌};
ghost use Rattle.monk_history.specs.Text.{via_word, from_word, Words.Reads, Words.one_of};
ghost use Rattle.monk_history.specs.Text.Reading.{vias, froms, next_word, all_next_words, verb_word, verbs_of, next_at};
ghost use Rattle.monk_history.specs.Text.Reading.{cond_next_at, act_at, event_after, event_at};

use crate::event::{Event, From3, Next, Via};
use crate::limits::ALL_EVENTS_VERSION;
use crate::text::event_front::{WINDOW, event_at_front};
use crate::text::fault::Flaw;
use crate::text::header::Header;
use crate::text::lines::{LineWords, Record};
use crate::text::next_word::NextWord;
use crate::text::verb::Verb;
use monk_object::Op;

impl Record<Header> for Event {
    ghost use Rattle.std.specs.Prelude.{IfSome};
    ghost use Rattle.monk_history.specs.Text.Words.{Reads};
    ghost use Rattle.monk_history.specs.Text.Lines.{IsAtFront};
    ghost use Rattle.monk_history.specs.Text.Reading.{event_under};

    ghost parse = { event_under };

    #[inline(always)]
    fn parse(header: &Header, words: &mut LineWords<'_>) -> Result<Event, Flaw>
        ensures { Reads result words.new (event_under header.now words.old) }
    {
        event(words, header.version())
    }

    #[inline(always)]
    fn at_front<Caller>(header: &Header, bytes: &[u8]) -> Option<(Event, usize)>
        ensures { IfSome result (λ r. IsAtFront (event_under header.now) bytes.now r.0 r.1) }
    {
        if bytes.len() < WINDOW {
            return None;
        }
        event_at_front::<Caller>(bytes, header.version())
    }
}

#[tactic(auto, unfolding(crate::specs::Text::Reading::event_at))]
#[inline(always)]
fn event(words: &mut LineWords<'_>, version: u8) -> Result<Event, Flaw>
    requires { 1 ≤ version }
    ensures { Reads result words.new (event_at version words.old) }
{
    let verb = verb(words, version)?;
    let seat = words.byte()?;
    let event = event_after(words, verb, seat)?;
    words.end()?;
    Ok(event)
}

#[tactic(auto, unfolding(crate::specs::Text::Reading::event_after))]
#[inline(always)]
fn event_after(words: &mut LineWords<'_>, verb: Verb, seat: u8) -> Result<Event, Flaw>
    ensures { Reads result words.new (event_after verb seat words.old) }
{
    match verb {
        Verb::Enter => Ok(Event::Enter(seat, via(words)?)),
        Verb::Act => {
            let (op, reply) = act_parts(words)?;
            Ok(Event::Act(seat, op, reply))
        }
        Verb::Leave => Ok(Event::Leave(seat, next(words)?)),
        Verb::Wait => {
            let (cond, next) = cond_next(words)?;
            Ok(Event::Wait(seat, cond, next))
        }
        Verb::Signal => {
            let (cond, next) = cond_next(words)?;
            Ok(Event::Signal(seat, cond, next))
        }
        Verb::SignalLeave => {
            let (cond, next) = cond_next(words)?;
            Ok(Event::SignalLeave(seat, cond, next))
        }
        Verb::Until => {
            let (pred, next) = cond_next(words)?;
            Ok(Event::Until(seat, pred, next))
        }
        Verb::Resume => Ok(Event::Resume(seat, from(words)?)),
        Verb::SignalAll => Ok(Event::SignalAll(seat, words.byte()?)),
        Verb::SignalWait => {
            let cond = words.byte()?;
            let (wait_cond, next) = cond_next(words)?;
            Ok(Event::SignalWait(seat, cond, wait_cond, next))
        }
    }
}

/// Takes the three words `CODE ARG REPLY` of an act, and leaves the words after them.
///
/// Returns [`Flaw::Word`] if one of them is missing, and [`Flaw::Number`] if a code isn't a number from 0 to 255, an
/// argument isn't below 2^32, or a reply isn't below 2^64. Takes no memory.
#[tactic(auto, unfolding(crate::specs::Text::Reading::act_at))]
#[inline(always)]
pub fn act_parts(words: &mut LineWords<'_>) -> Result<(Op, u64), Flaw>
    ensures { Reads result words.new (act_at words.old) }
{
    let code = words.byte()?;
    let arg = words.number(u64::from(u32::MAX))? as u32;
    let reply = words.number(u64::MAX)?;
    Ok((Op { code, arg }, reply))
}

/// Reads a condition or a predicate, and a next.
#[tactic(auto, unfolding(crate::specs::Text::Reading::cond_next_at))]
#[inline(always)]
fn cond_next(words: &mut LineWords<'_>) -> Result<(u8, Next), Flaw>
    ensures { Reads result words.new (cond_next_at words.old) }
{
    let cond = words.byte()?;
    let next = next(words)?;
    Ok((cond, next))
}

#[tactic(auto, unfolding(crate::specs::Text::Reading::next_at))]
#[inline(always)]
fn next(words: &mut LineWords<'_>) -> Result<Next, Flaw>
    ensures { Reads result words.new (next_at words.old) }
{
    Ok(match next_word(words)? {
        NextWord::Stay => Next::Stay,
        NextWord::Entry => Next::Entry,
        NextWord::Waiter => Next::Waiter(words.byte()?),
        NextWord::Signaller => Next::Signaller(words.byte()?),
        NextWord::Until => Next::Until(words.byte()?),
    })
}

/// Reads a verb of that version.
#[tactic(auto, using(crate::proofs::TextLaws::EventWords::verb_words))]
#[inline(always)]
fn verb(words: &mut LineWords<'_>, version: u8) -> Result<Verb, Flaw>
    requires { 1 ≤ version }
    ensures { Reads result words.new (one_of verb_word (verbs_of version) words.old) }
{
    if words.takes(b"enter") {
        Ok(Verb::Enter)
    } else if words.takes(b"act") {
        Ok(Verb::Act)
    } else if words.takes(b"leave") {
        Ok(Verb::Leave)
    } else if words.takes(b"wait") {
        Ok(Verb::Wait)
    } else if words.takes(b"signal") {
        Ok(Verb::Signal)
    } else if words.takes(b"signal-leave") {
        Ok(Verb::SignalLeave)
    } else if words.takes(b"until") {
        Ok(Verb::Until)
    } else if words.takes(b"resume") {
        Ok(Verb::Resume)
    } else if version < ALL_EVENTS_VERSION {
        Err(Flaw::Word)
    } else if words.takes(b"signal-all") {
        Ok(Verb::SignalAll)
    } else if words.takes(b"signal-wait") {
        Ok(Verb::SignalWait)
    } else {
        Err(Flaw::Word)
    }
}

#[tactic(auto, using(crate::proofs::TextLaws::EventWords::next_words))]
#[inline(always)]
fn next_word(words: &mut LineWords<'_>) -> Result<NextWord, Flaw>
    ensures { Reads result words.new (one_of next_word all_next_words words.old) }
{
    if words.takes(b"stay") {
        Ok(NextWord::Stay)
    } else if words.takes(b"entry") {
        Ok(NextWord::Entry)
    } else if words.takes(b"waiter") {
        Ok(NextWord::Waiter)
    } else if words.takes(b"signaller") {
        Ok(NextWord::Signaller)
    } else if words.takes(b"until") {
        Ok(NextWord::Until)
    } else {
        Err(Flaw::Word)
    }
}

#[tactic(auto, using(crate::proofs::TextLaws::EventWords::via_words))]
#[inline(always)]
fn via(words: &mut LineWords<'_>) -> Result<Via, Flaw>
    ensures { Reads result words.new (one_of via_word vias words.old) }
{
    if words.takes(b"free") {
        Ok(Via::Free)
    } else if words.takes(b"handed") {
        Ok(Via::Handed)
    } else {
        Err(Flaw::Word)
    }
}

#[tactic(auto, using(crate::proofs::TextLaws::EventWords::from_words))]
#[inline(always)]
fn from(words: &mut LineWords<'_>) -> Result<From3, Flaw>
    ensures { Reads result words.new (one_of from_word froms words.old) }
{
    if words.takes(b"waiter") {
        Ok(From3::Waiter)
    } else if words.takes(b"signaller") {
        Ok(From3::Signaller)
    } else if words.takes(b"until") {
        Ok(From3::Until)
    } else {
        Err(Flaw::Word)
    }
}
