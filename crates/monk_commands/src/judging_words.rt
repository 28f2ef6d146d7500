//! What the words of `fit` and of `explain` ask for.

ghost use Rattle.std.specs.Prelude.{IfOk, IfSome, codes, map};
ghost use Rattle.clap.specs.Words.{all_of, found_of, rows_of};
ghost use Rattle.monk_commands.specs.Request.{AreJudging, AreMeanings, IsFlag, IsInDigits, IsMeaning, IsRead};
ghost use Rattle.monk_commands.specs.Request.{is_json, words_or_none};

use crate::fit_form::FitForm;
use crate::found_words::{file_of, files_of, is_set, one_kind};
use crate::request::{Judging, Line, LineFault};
use clap::ArgMatches;
use monk_judge::WaitsFor;
use std::alloc::Global;

fn number(digits: &str) -> Option<u8>
    ensures { IfSome result (IsInDigits digits.now) }
{
    digits.parse().ok()
}

/// Reads a word `COND=PRED`: threads that wait on the condition wait for the predicate.
fn meaning_of(word: &str) -> Option<WaitsFor>
    ensures { IfSome result (IsMeaning word.now) }
{
    let (cond, pred) = word.split_once('=')?;
    let (cond, pred) = (number(cond)?, number(pred)?);
    Some(WaitsFor { cond, pred })
}

/// Reads each of the words as `COND=PRED`.
fn meanings(alloc: Global, words: &[&str]) -> Result<Vec<WaitsFor>, LineFault>
    ensures { IfOk result (λ means. AreMeanings (map (λ w. w.now) words.now) means.items) }
{
    let mut means = Vec::new(alloc);
    for word in words {
        let Some(meaning) = meaning_of(word) else {
            let text = format!(in alloc;
                "error: '{word}' is no COND=PRED, two numbers from 0 to 255"
            )?;
            return Err(LineFault::Words(text));
        };
        means.push(meaning)?;
    }
    Ok(means)
}

/// Returns what the words of `--means` say, in order.
fn meanings_of(alloc: Global, matches: &ArgMatches<'_>) -> Result<Vec<WaitsFor>, LineFault>
    ensures { IfOk result
        (λ means. AreMeanings (words_or_none (all_of (codes "means") (rows_of (found_of matches.now)))) means.items) }
{
    match matches.get_strs("means") {
        Some(words) => meanings(alloc, words),
        None => Ok(Vec::new(alloc)),
    }
}

/// Returns how a text is to be judged.
fn judging(alloc: Global, matches: &ArgMatches<'_>) -> Result<Judging, LineFault>
    ensures { IfOk result (λ j. AreJudging j (rows_of (found_of matches.now))) }
{
    let kind = one_kind(alloc, matches)?;
    let means = meanings_of(alloc, matches)?;
    Ok(Judging { kind, means })
}

/// Returns how findings are written.
fn form_of(matches: &ArgMatches<'_>) -> FitForm
    ensures { IsFlag (codes "json") (is_json result) (rows_of (found_of matches.now)) }
{
    if is_set(matches, "json") {
        FitForm::Json
    } else {
        FitForm::Words
    }
}

pub(crate) fn line_to_fit(alloc: Global, matches: &ArgMatches<'_>) -> Result<Line, LineFault>
    ensures { IfOk result (λ l. IsRead (codes "fit") l (rows_of (found_of matches.now))) }
{
    let form = form_of(matches);
    let judging = judging(alloc, matches)?;
    let files = files_of(alloc, matches)?;
    Ok(Line::Fit(files, judging, form))
}

pub(crate) fn line_to_explain(alloc: Global, matches: &ArgMatches<'_>) -> Result<Line, LineFault>
    ensures { IfOk result (λ l. IsRead (codes "explain") l (rows_of (found_of matches.now))) }
{
    let judging = judging(alloc, matches)?;
    let file = file_of(alloc, matches)?;
    Ok(Line::Explain(file, judging))
}
