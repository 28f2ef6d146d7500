//! The words of a command line, and the streams that answer them.
ghost use Rattle.std.specs.Prelude.{◌≡◌, false};
ghost use Rattle.monk_history.specs.Text.Device.{has_failed};
ghost use Rattle.monk_samples.specs.Samples.{IsInRange};

use monk_commands::{
    Line, LineFault, StreamFault, audit_stream, classify_stream, line, play_stream, run_stream,
    upgrade_stream,
};
use monk_history::Device;
use monk_kinds::KindName;
use monk_samples::Sample;
use std::alloc::Global;
use std::io::{Read, Write};
use std::sync::Wait;
use std::thread::Threads;

pub fn line_of(alloc: Global, words: &[&str]) -> Result<Line, LineFault> {
    line(alloc, words)
}

/// What is asked for: five commands of the surface, and those that came later.
pub enum Asked {
    Ordering(u8, u8, u8),
    Text(Option<String>),
    Run(KindName, Sample, u8, u32),
    Later(Line),
}

pub fn what_is_asked(line: Line) -> Asked {
    match line {
        Line::Classify(e, w, s) => Asked::Ordering(e, w, s),
        Line::Audit(file) => Asked::Text(file),
        Line::Play(file) => Asked::Text(file),
        Line::Upgrade(file) => Asked::Text(file),
        Line::Run(kind, sample, seats, rounds) => Asked::Run(kind, sample, seats, rounds),
        later => Asked::Later(later),
    }
}

pub fn audit_of<R: Read, W: Write>(
    alloc: Global,
    reader: &mut Device<R>,
    writer: &mut Device<W>,
) -> Result<u8, StreamFault>
    requires reader_works { has_failed reader.old ≡ false }
    requires writer_works { has_failed writer.old ≡ false }
{
    audit_stream(alloc, reader, writer)
}

pub fn play_of<R: Read, W: Write>(
    alloc: Global,
    reader: &mut Device<R>,
    writer: &mut Device<W>,
) -> Result<u8, StreamFault>
    requires reader_works { has_failed reader.old ≡ false }
    requires writer_works { has_failed writer.old ≡ false }
{
    play_stream(alloc, reader, writer)
}

pub fn upgrade_of<R: Read, W: Write>(
    alloc: Global,
    reader: &mut Device<R>,
    writer: &mut Device<W>,
) -> Result<u8, StreamFault>
    requires reader_works { has_failed reader.old ≡ false }
    requires writer_works { has_failed writer.old ≡ false }
{
    upgrade_stream(alloc, reader, writer)
}

pub fn ordering_of<W: Write>(e: u8, w: u8, s: u8, writer: &mut Device<W>) -> Result<u8, StreamFault>
    requires { has_failed writer.old ≡ false }
{
    classify_stream(e, w, s, writer)
}

pub fn run_of<R: Threads + Wait + Sync, W: Write>(
    rt: &R,
    alloc: Global,
    kind: KindName,
    sample: Sample,
    seats: u8,
    rounds: u32,
    writer: &mut Device<W>,
) -> Result<u8, StreamFault>
    requires in_range { IsInRange seats rounds }
    requires works { has_failed writer.old ≡ false }
{
    run_stream(rt, alloc, kind, sample, seats, rounds, writer)
}
