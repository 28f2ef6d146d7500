//! A finding as JSON.

use crate::logs::finding::Finding;
use crate::logs::verdict_words::number;
use monk_judge::Tally;
use serde_json::{Map, Value, json, put};
use std::alloc::{AllocError, Global};

/// Returns a finding as a line of JSON, for other programs. Lines count as in the file; what isn't there is null.
pub(crate) fn finding_json(
    alloc: Global,
    name: &str,
    finding: &Finding,
) -> Result<String, AllocError> {
    let mut map = Map::new(alloc);
    put_end(alloc, &mut map, name, finding)?;
    put_threads(alloc, &mut map, finding)?;
    put_tally(alloc, &mut map, &finding.report.tally)?;
    put_misfit(alloc, &mut map, finding)?;
    put_holder(alloc, &mut map, finding)?;
    line_of(alloc, &Value::Object(map))
}

/// Returns why nothing is found, as one line of JSON.
pub(crate) fn fault_json(alloc: Global, name: &str, line: &str) -> Result<String, AllocError> {
    let error = line.trim_end();
    line_of(alloc, &json!(in alloc; {"file": name, "error": error})?)
}

fn line_of(alloc: Global, value: &Value) -> Result<String, AllocError> {
    let mut line = value.to_string(alloc)?;
    line.push_str("\n")?;
    Ok(line)
}

/// Returns the number of a line in the file, or null.
fn line_value(index: Option<usize>) -> Value {
    match index {
        Some(index) => Value::from(number(index)),
        None => Value::Null,
    }
}

/// Adds the log's name, whether it fits, and how its program ends.
fn put_end(
    alloc: Global,
    map: &mut Map<String, Value>,
    name: &str,
    finding: &Finding,
) -> Result<(), AllocError> {
    put(map, alloc, "file", Value::try_from_str(alloc, name)?)?;
    let end = Value::try_from_str(alloc, finding.end_name())?;
    put(map, alloc, "end", end)?;
    let (fits, has_ended) = (finding.report.misfit.is_none(), finding.has_ended);
    put(map, alloc, "fits", Value::from(fits))?;
    put(map, alloc, "ended", Value::from(has_ended))
}

/// Adds how many threads sleep or are on their way at the end, and the signals that were missed or crossed.
fn put_threads(
    alloc: Global,
    map: &mut Map<String, Value>,
    finding: &Finding,
) -> Result<(), AllocError> {
    let report = &finding.report;
    put(map, alloc, "asleep", Value::from(report.asleep))?;
    put(map, alloc, "woken", Value::from(report.woken))?;
    put(map, alloc, "missed", line_value(report.missed))?;
    let crossed = finding
        .report
        .crossed
        .map_or(0, |crossed| crossed.seats as u64);
    let crossed = counted(alloc, crossed, "last", finding.crossed_at())?;
    put(map, alloc, "crossed", crossed)
}

/// Adds what is counted over the lines.
fn put_tally(alloc: Global, map: &mut Map<String, Value>, tally: &Tally) -> Result<(), AllocError> {
    put(map, alloc, "served", Value::from(tally.served))?;
    put(map, alloc, "passed", Value::from(tally.passed))?;
    put(map, alloc, "overtaken", overtaken(alloc, tally)?)?;
    let spurious = counted(alloc, tally.spurious, "first", tally.first_spurious)?;
    put(map, alloc, "spurious", spurious)?;
    let unheard = counted(alloc, tally.unheard, "last", tally.last_unheard)?;
    put(map, alloc, "unheard", unheard)
}

/// Returns how often something is found, and the line that is `first` or `last`.
fn counted(
    alloc: Global,
    count: u64,
    which: &'static str,
    line: Option<usize>,
) -> Result<Value, AllocError> {
    let line = line_value(line);
    json!(in alloc; {"count": count, which: line})
}

/// Returns how many threads were overtaken, how many of them waited again, and the first that didn't.
fn overtaken(alloc: Global, tally: &Tally) -> Result<Value, AllocError> {
    let (count, again) = (tally.overtaken, tally.again);
    let first = line_value(tally.first_not_again);
    json!(in alloc; {"count": count, "again": again, "first": first})
}

/// Adds what is wrong with which line, if the log misfits.
fn put_misfit(
    alloc: Global,
    map: &mut Map<String, Value>,
    finding: &Finding,
) -> Result<(), AllocError> {
    let Some(misfit) = finding.report.misfit else {
        return Ok(());
    };
    put(map, alloc, "line", Value::from(number(misfit.line)))?;
    let reason = Value::try_from_str(alloc, misfit.why.text())?;
    put(map, alloc, "reason", reason)?;
    put(map, alloc, "seat", Value::from(finding.wrong_seat))
}

/// Adds who holds the lock at the end, if somebody does.
fn put_holder(
    alloc: Global,
    map: &mut Map<String, Value>,
    finding: &Finding,
) -> Result<(), AllocError> {
    let Some(holder) = finding.report.holder else {
        return Ok(());
    };
    put(map, alloc, "holder", Value::from(holder.seat))?;
    put(map, alloc, "since", Value::from(number(holder.since)))
}
