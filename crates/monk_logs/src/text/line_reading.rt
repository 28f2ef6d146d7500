//! A line of a log, read from its words.

ghost use Rattle.monk_history.specs.Text.Words.{Reads, one_of};
ghost use Rattle.monk_logs.specs.Log.Reading.{log_verb_word, log_verbs, line_after, log_line_at};

use crate::text::header::LogHeader;
use crate::text::line::LogLine;
use crate::text::log_front::{WINDOW, line_at_front};
use crate::text::verb::LineVerb;
use monk_history::act_parts;
use monk_history::lines::{Flaw, LineWords, Record};

impl Record<LogHeader> for LogLine {
    ghost use Rattle.std.specs.Prelude.{IfSome};
    ghost use Rattle.monk_history.specs.Text.Lines.{IsAtFront};
    ghost use Rattle.monk_history.specs.Text.Words.{Reads};
    ghost use Rattle.monk_logs.specs.Log.Reading.{line_under};

    ghost parse = { line_under };

    fn parse(_header: &LogHeader, words: &mut LineWords<'_>) -> Result<LogLine, Flaw>
        ensures { Reads result words.new (line_under _header.now words.old) }
    {
        log_line(words)
    }

    #[inline(always)]
    fn at_front<Caller>(_header: &LogHeader, bytes: &[u8]) -> Option<(LogLine, usize)>
        ensures { IfSome result (λ r. IsAtFront (line_under _header.now) bytes.now r.0 r.1) }
    {
        if bytes.len() < WINDOW {
            return None;
        }
        line_at_front(bytes)
    }
}

#[tactic(auto, unfolding(crate::specs::Log::Reading::log_line_at))]
fn log_line(words: &mut LineWords<'_>) -> Result<LogLine, Flaw>
    ensures { Reads result words.new (log_line_at words.old) }
{
    let verb = verb(words)?;
    let seat = words.byte()?;
    let line = line_after(words, verb, seat)?;
    words.end()?;
    Ok(line)
}

#[tactic(auto, unfolding(crate::specs::Log::Reading::line_after))]
fn line_after(words: &mut LineWords<'_>, verb: LineVerb, seat: u8) -> Result<LogLine, Flaw>
    ensures { Reads result words.new (line_after verb seat words.old) }
{
    match verb {
        LineVerb::Enter => Ok(LogLine::Enter(seat)),
        LineVerb::Resume => Ok(LogLine::Resume(seat)),
        LineVerb::Lapse => Ok(LogLine::Lapse(seat)),
        LineVerb::Leave => Ok(LogLine::Leave(seat)),
        LineVerb::Wait => Ok(LogLine::Wait(seat, words.byte()?)),
        LineVerb::Signal => Ok(LogLine::Signal(seat, words.byte()?)),
        LineVerb::Broadcast => Ok(LogLine::Broadcast(seat, words.byte()?)),
        LineVerb::Until => Ok(LogLine::Until(seat, words.byte()?)),
        LineVerb::Act => {
            let (op, reply) = act_parts(words)?;
            Ok(LogLine::Act(seat, op, reply))
        }
    }
}

#[tactic(auto, unfolding(monk_history::specs::Text::Words::one_of))]
fn verb(words: &mut LineWords<'_>) -> Result<LineVerb, Flaw>
    ensures { Reads result words.new (one_of log_verb_word log_verbs words.old) }
{
    let word = words.next().ok_or(Flaw::Word)?;
    LineVerb::of_text(word).ok_or(Flaw::Word)
}
