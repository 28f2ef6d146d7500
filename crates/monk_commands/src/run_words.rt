//! What the words of the commands that run threads ask for.

ghost use Rattle.std.specs.Prelude.{◌≡◌, IfOk, Some, codes};
ghost use Rattle.clap.specs.Words.{first_of, found_of, rows_of};
ghost use Rattle.monk_kinds.specs.Names.{kind_word};
ghost use Rattle.monk_samples.specs.Samples.{IsInRange};
ghost use Rattle.monk_commands.specs.Request.{AreSizes, IsRead, sample_word};

use crate::found_words::{byte, file_of, kind_of, missing, number, word_of};
use crate::request::{Line, LineFault};
use clap::ArgMatches;
use monk_kinds::KindName;
use monk_object::ObjectName;
use monk_samples::{LEAST_RUN_SEATS, MOST_ROUNDS, MOST_RUN_SEATS, Sample};
use std::alloc::Global;

/// Returns the kind that is named.
fn kind(alloc: Global, matches: &ArgMatches<'_>) -> Result<KindName, LineFault>
    ensures { IfOk result
        (λ kind. first_of (codes "KIND") (rows_of (found_of matches.now)) ≡ Some (kind_word kind)) }
{
    match word_of(matches, "KIND") {
        Some(word) => kind_of(alloc, word),
        None => Err(missing(alloc)),
    }
}

/// Returns the sample that is named.
fn sample(alloc: Global, matches: &ArgMatches<'_>) -> Result<Sample, LineFault>
    ensures { IfOk result
        (λ sample. first_of (codes "SAMPLE") (rows_of (found_of matches.now)) ≡ Some (sample_word sample)) }
{
    let Some(word) = word_of(matches, "SAMPLE") else {
        return Err(missing(alloc));
    };
    match ObjectName::of_text(word.as_bytes()) {
        Some(ObjectName::Buffer) => Ok(Sample::Buffer),
        Some(ObjectName::Book) => Ok(Sample::Book),
        Some(ObjectName::Shop) => Ok(Sample::Shop),
        Some(ObjectName::Flags) | None => Err(missing(alloc)),
    }
}

/// Returns the seats and the rounds that are asked for. clap has tested the ranges, but has no
/// contract that says so for a subcommand's numbers. So they are tested once more.
fn sizes(alloc: Global, matches: &ArgMatches<'_>) -> Result<(u8, u32), LineFault>
    ensures values { IfOk result (λ r. AreSizes r.0 r.1 (rows_of (found_of matches.now))) }
    ensures in_range { IfOk result (λ r. IsInRange r.0 r.1) }
{
    let seats = byte(alloc, matches, "SEATS")?;
    let rounds = number(alloc, matches, "ROUNDS")?;
    if !(LEAST_RUN_SEATS..=MOST_RUN_SEATS).contains(&seats)
        || !(1..=MOST_ROUNDS).contains(&rounds)
    {
        return Err(missing(alloc));
    }
    Ok((seats, rounds))
}

/// Returns what `run` or `record` asks for.
pub(crate) fn line_to_run(
    alloc: Global,
    name: &str,
    matches: &ArgMatches<'_>,
) -> Result<Line, LineFault>
    ensures { IfOk result (λ l. IsRead name.now l (rows_of (found_of matches.now))) }
{
    let kind = kind(alloc, matches)?;
    let sample = sample(alloc, matches)?;
    let (seats, rounds) = sizes(alloc, matches)?;
    match name {
        "run" => Ok(Line::Run(kind, sample, seats, rounds)),
        "record" => Ok(Line::Record(kind, sample, seats, rounds)),
        _ => Err(missing(alloc)),
    }
}

pub(crate) fn line_to_hasty(alloc: Global, matches: &ArgMatches<'_>) -> Result<Line, LineFault>
    ensures { IfOk result (λ l. IsRead (codes "hasty") l (rows_of (found_of matches.now))) }
{
    let kind = kind(alloc, matches)?;
    let (seats, rounds) = sizes(alloc, matches)?;
    let file = file_of(alloc, matches)?;
    Ok(Line::Hasty(kind, seats, rounds, file))
}
