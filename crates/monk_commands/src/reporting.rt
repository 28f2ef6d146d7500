//! What is written for a play: the history that it leads to, or a trace.

ghost use Rattle.std.specs.Prelude.{◌≡◌, ◌≤◌, false, IfOk, OnOk};
ghost use Rattle.std.specs.{Option.ForSome, Io.KnownBytes.Appends};
ghost use Rattle.monk_kinds.specs.Names.{rules_named};
ghost use Rattle.monk_object.specs.declared.name.ObjectName.TheVariants as object;
ghost use Rattle.monk_object.specs.Names.{meaning_named, most, opening_named};
ghost use Rattle.monk_history.specs.Text.Device.{inner_of, has_failed};
ghost use Rattle.monk_commands.specs.{Played.IsAnswerTo, Played.IsPlayAnswer, Played.IsPlayable, Streams.IsReporting};
ghost use Rattle.monk_commands.specs.Reported.{IsReported, IsReportedBy, report_with};

use crate::answer::{put, too_big, unreadable};
use crate::fault::StreamFault;
use crate::objects::{book, buffer, flags, shop};
use crate::report::Report;
use crate::trace_lines::put_trace;
use monk_floor::MakeFault;
use monk_history::{Device, write};
use monk_kinds::{Kind, KindName, Npb, Npir, Npis, Npnb, Npqb, Pb, Pir, Pis, Pnb, Pqb};
use monk_object::{Listed, ObjectName};
use monk_world::{PlayLines, World};
use std::alloc::Global;
use std::io::Write;

/// Plays the commands over the object, by the kind K. Writes the history, or a trace if there is a
/// second object, which is as the first. A trace shows the second's data, because the world doesn't
/// show its own.
fn play_as<K: Kind, T: Listed, W: Write>(
    alloc: Global,
    object: T,
    shown: Option<T>,
    play: PlayLines<'_>,
    writer: &mut Device<W>,
) -> Result<(), StreamFault>
    requires works { has_failed writer.old ≡ false }
    requires playable { IsPlayable play }
    requires alike { ForSome shown (λ s. T.state s ≡ T.state object) }
    ensures played { OnOk result
        (IsReportedBy (report_with shown) K.rules T.meaning (T.state object) play.entry.0 play.entry.1 play.entry.2
        (Appends (W.contents (inner_of writer.old)) (W.contents (inner_of writer.new)))) }
    ensures writing { IsReporting (report_with shown) writer.old writer.new result }
{
    let header = play.header();
    match World::<K, T>::make(alloc, object, header.seats(), header.conds(), play.budget()) {
        Ok(mut world) => match shown {
            None => {
                world.run_lines(play);
                match write(&header, world.history(), writer) {
                    Ok(()) => Ok(()),
                    Err(_) => Err(StreamFault::File),
                }
            }
            Some(shown) => put_trace(alloc, &mut world, shown, play, writer),
        },
        Err(MakeFault::Memory) => Err(StreamFault::Memory),
        // The numbers of a play that was read are in range.
        Err(_) => unreachable!(),
    }
}

/// Does the same by the kind that the header names.
fn play_named<T: Listed, W: Write>(
    alloc: Global,
    object: T,
    shown: Option<T>,
    play: PlayLines<'_>,
    writer: &mut Device<W>,
) -> Result<(), StreamFault>
    requires works { has_failed writer.old ≡ false }
    requires playable { IsPlayable play }
    requires alike { ForSome shown (λ s. T.state s ≡ T.state object) }
    ensures played { OnOk result
        (IsReportedBy (report_with shown) (rules_named play.entry.0.kind) T.meaning
        (T.state object) play.entry.0 play.entry.1 play.entry.2
        (Appends (W.contents (inner_of writer.old)) (W.contents (inner_of writer.new)))) }
    ensures writing { IsReporting (report_with shown) writer.old writer.new result }
{
    match play.header().kind() {
        KindName::Pb => play_as::<Pb, T, W>(alloc, object, shown, play, writer),
        KindName::Npb => play_as::<Npb, T, W>(alloc, object, shown, play, writer),
        KindName::Pnb => play_as::<Pnb, T, W>(alloc, object, shown, play, writer),
        KindName::Npnb => play_as::<Npnb, T, W>(alloc, object, shown, play, writer),
        KindName::Pqb => play_as::<Pqb, T, W>(alloc, object, shown, play, writer),
        KindName::Npqb => play_as::<Npqb, T, W>(alloc, object, shown, play, writer),
        KindName::Pir => play_as::<Pir, T, W>(alloc, object, shown, play, writer),
        KindName::Npir => play_as::<Npir, T, W>(alloc, object, shown, play, writer),
        KindName::Pis => play_as::<Pis, T, W>(alloc, object, shown, play, writer),
        KindName::Npis => play_as::<Npis, T, W>(alloc, object, shown, play, writer),
    }
}

/// Does the same over this object. `shown` is another with its state, for a trace to show.
fn play_over<T: Listed, W: Write>(
    alloc: Global,
    report: Report,
    object: T,
    shown: T,
    play: PlayLines<'_>,
    writer: &mut Device<W>,
) -> Result<(), StreamFault>
    requires works { has_failed writer.old ≡ false }
    requires playable { IsPlayable play }
    requires alike { T.state shown ≡ T.state object }
    ensures played { OnOk result
        (IsReportedBy report (rules_named play.entry.0.kind) T.meaning
        (T.state object) play.entry.0 play.entry.1 play.entry.2
        (Appends (W.contents (inner_of writer.old)) (W.contents (inner_of writer.new)))) }
    ensures writing { IsReporting report writer.old writer.new result }
{
    match report {
        Report::History => play_named(alloc, object, None, play, writer),
        Report::Trace => play_named(alloc, object, Some(shown), play, writer),
    }
}

/// Does the same over a buffer of that size. It takes memory, so only a trace has a second one.
fn play_buffer<W: Write>(
    alloc: Global,
    report: Report,
    size: u8,
    play: PlayLines<'_>,
    writer: &mut Device<W>,
) -> Result<(), StreamFault>
    requires works { has_failed writer.old ≡ false }
    requires playable { IsPlayable play }
    requires some { 1 ≤ size }
    requires few { size ≤ most object.Buffer }
    ensures played { OnOk result
        (IsReportedBy report (rules_named play.entry.0.kind) (meaning_named object.Buffer)
        (opening_named object.Buffer size) play.entry.0 play.entry.1 play.entry.2
        (Appends (W.contents (inner_of writer.old)) (W.contents (inner_of writer.new)))) }
    ensures writing { IsReporting report writer.old writer.new result }
{
    match report {
        Report::History => play_named(alloc, buffer(alloc, size)?, None, play, writer),
        Report::Trace => {
            let shown = buffer(alloc, size)?;
            play_over(alloc, report, buffer(alloc, size)?, shown, play, writer)
        }
    }
}

/// Does the same over the object that the header names.
fn play_object<W: Write>(
    alloc: Global,
    report: Report,
    play: PlayLines<'_>,
    writer: &mut Device<W>,
) -> Result<(), StreamFault>
    requires works { has_failed writer.old ≡ false }
    requires playable { IsPlayable play }
    requires size { play.0.size ≤ most play.0.object }
    ensures played { OnOk result
        (IsReported report play.entry.0 play.entry.1 play.entry.2
        (Appends (W.contents (inner_of writer.old)) (W.contents (inner_of writer.new)))) }
    ensures writing { IsReporting report writer.old writer.new result }
{
    let header = play.header();
    let size = header.size();
    match header.object() {
        ObjectName::Buffer => play_buffer(alloc, report, size, play, writer),
        ObjectName::Book => play_over(alloc, report, book(size), book(size), play, writer),
        ObjectName::Shop => play_over(alloc, report, shop(size), shop(size), play, writer),
        ObjectName::Flags => play_over(alloc, report, flags(size), flags(size), play, writer),
    }
}

/// Answers a play that was read.
fn play_lines<W: Write>(
    alloc: Global,
    report: Report,
    play: PlayLines<'_>,
    writer: &mut Device<W>,
) -> Result<u8, StreamFault>
    requires works { has_failed writer.old ≡ false }
    requires playable { IsPlayable play }
    ensures answer { IfOk result
        (λ status. IsPlayAnswer (IsReported report) play.entry status
        (Appends (W.contents (inner_of writer.old)) (W.contents (inner_of writer.new)))) }
    ensures writing { IsReporting report writer.old writer.new result }
{
    let header = play.header();
    if header.size() > header.object().greatest_size() {
        return put(&too_big(alloc)?, writer);
    }
    play_object(alloc, report, play, writer)?;
    Ok(0)
}

/// Answers a text.
pub(crate) fn play_text<W: Write>(
    alloc: Global,
    report: Report,
    bytes: Vec<u8>,
    writer: &mut Device<W>,
) -> Result<u8, StreamFault>
    requires { has_failed writer.old ≡ false }
    ensures answer { IfOk result
        (λ status. IsAnswerTo (IsReported report) bytes.items status
        (Appends (W.contents (inner_of writer.old)) (W.contents (inner_of writer.new)))) }
    ensures writing { IsReporting report writer.old writer.new result }
{
    match PlayLines::check(&bytes) {
        Ok(play) => play_lines(alloc, report, play, writer),
        Err(fault) => put(&unreadable(alloc, fault)?, writer),
    }
}
