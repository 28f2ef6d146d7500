//! A finding in one line: whether the log fits, what is counted in it, and what else was found.

ghost use Rattle.std.specs.Prelude.{◌≡◌, IfOk, string_bytes};
ghost use Rattle.monk_commands.specs.LogFound as found;

use crate::logs::finding::Finding;
use crate::logs::verdict_words::{number, verdict_words};
use monk_judge::Tally;
use monk_logs::Crossed;
use std::alloc::{AllocError, Global};

/// Returns a number after a word, if it isn't 0.
fn counted(alloc: Global, word: &str, many: u64) -> Result<String, AllocError>
    ensures { IfOk result (λ text. string_bytes text ≡ found.counted word.now many) }
{
    if many == 0 {
        return Ok(String::new(alloc));
    }
    Ok(format!(in alloc; "{word}{many}")?)
}

/// Returns the number of a line after a word, if there is one.
fn placed(alloc: Global, word: &str, index: Option<usize>) -> Result<String, AllocError>
    ensures { IfOk result (λ text. string_bytes text ≡ found.placed word.now index) }
{
    match index {
        None => Ok(String::new(alloc)),
        Some(index) => {
            let line = number(index);
            Ok(format!(in alloc; "{word}{line}")?)
        }
    }
}

/// Returns the seats that a signal crossed on their way to sleep.
fn crossed_words(alloc: Global, crossed: Option<Crossed>) -> Result<String, AllocError>
    ensures { IfOk result (λ text. string_bytes text ≡ found.crossed_words crossed) }
{
    match crossed {
        None => Ok(String::new(alloc)),
        Some(crossed) => {
            // `crossed.line` counts from 1 after the header.
            let (seats, line) = (crossed.seats, crossed.line.saturating_add(1));
            Ok(format!(in alloc; "; crossed {seats} at {line}")?)
        }
    }
}

/// Says that none of the threads that were overtaken on their way back waited again.
fn overtaken_words(alloc: Global, overtaken: u64) -> Result<String, AllocError>
    ensures { IfOk result (λ text. string_bytes text ≡ found.overtaken_words overtaken) }
{
    Ok(format!(in alloc; "; never waits again (0 of {overtaken} overtaken)")?)
}

/// Returns these words, with the line of the first.
fn with_first(alloc: Global, words: &str, first: usize) -> Result<String, AllocError>
    ensures { IfOk result (λ text. string_bytes text ≡ found.with_first words.now first) }
{
    let line = number(first);
    Ok(format!(in alloc; "{words}, first at {line}")?)
}

/// Says the same, if there are enough of them, and none waited again.
fn never_words(alloc: Global, finding: &Finding) -> Result<String, AllocError>
    ensures { IfOk result (λ text. string_bytes text
        ≡ found.never_words finding.now.report.tally finding.now.report.tally.first_not_again) }
{
    let tally = &finding.report.tally;
    match tally.first_not_again {
        Some(first) if finding.never_waits_again() => {
            let words = overtaken_words(alloc, tally.overtaken)?;
            with_first(alloc, words.as_str(), first)
        }
        _ => Ok(String::new(alloc)),
    }
}

/// Returns the counts of signals.
fn tally_words(alloc: Global, tally: &Tally) -> Result<String, AllocError>
    ensures { IfOk result (λ text. string_bytes text ≡ found.tally_words tally.now) }
{
    let served = counted(alloc, "; served ", tally.served)?;
    let passed = counted(alloc, ", passed ", tally.passed)?;
    let unheard = counted(alloc, "; unheard ", tally.unheard)?;
    let last = placed(alloc, ", last at ", tally.last_unheard)?;
    Ok(format!(in alloc; "{served}{passed}{unheard}{last}")?)
}

/// Returns the line of a finding.
pub(crate) fn finding_line(alloc: Global, finding: &Finding) -> Result<String, AllocError>
    ensures { IfOk result (λ text. string_bytes text ≡ found.finding_line finding.now) }
{
    let verdict = verdict_words(alloc, finding)?;
    let counts = tally_words(alloc, &finding.report.tally)?;
    let missed = placed(alloc, "; missed at ", finding.report.missed)?;
    let crossed = crossed_words(alloc, finding.report.crossed)?;
    let never = never_words(alloc, finding)?;
    Ok(format!(in alloc; "{verdict}{counts}{missed}{crossed}{never}\n")?)
}
