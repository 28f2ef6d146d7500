//! The lines of a trace: one for each command of a play, with where all seats are after it.

ghost use Rattle.std.specs.Prelude.{◌≡◌, ◌<◌, ◌≤◌, ◌^◌, ◌++◌, false, All, OnOk, ℕ, List, [], length};
ghost use Rattle.std.specs.{Prelude.string_bytes, Io.KnownBytes.Appends};
ghost use Rattle.monk_history.specs.{Text.Device.inner_of, Text.Device.has_failed, Meaning.Monitor.monitor};
ghost use Rattle.monk_world.specs.WorldViews.{state_of_view};
ghost use Rattle.monk_commands.specs.{Streams.IsReporting, Following.IsBehind};
ghost use Rattle.monk_commands.specs.Traced.{AreTraced, data_part, line_front, places_text, refusal_text, seat_text};
ghost use Rattle.monk_commands.specs.Traced.{trace_line};
ghost use Rattle.monk_audit.specs.Replay.{replay_situation};
ghost use Rattle.monk_floor.specs.View.{empty_floor, monitor_of};
ghost use Rattle.monk_tell.specs.{Place.in_queues, Told.queues_of, declared.place.SeatPlace.SeatPlace};

use crate::fault::StreamFault;
use crate::following::Follower;
use crate::report::Report;
use monk_audit::Replay;
use monk_history::Device;
use monk_kinds::{Kind, rules_of};
use monk_object::{Guarded, Listed, ObjectName};
use monk_tell::{Data, NumberList, QueueLists, SeatPlace, data_numbers};
use monk_world::{Answer, Command, PlayLines, World};
use std::alloc::{AllocError, Global};
use std::fmt;
use std::io::Write;

/// Lines are written once there are so many bytes of them.
const PAGE: usize = 1 << 16;

/// Returns what follows an answer: that the object refused an act, if it did.
fn refusal(answer: Answer) -> &'static str
    ensures { result.now ≡ refusal_text answer }
{
    match answer {
        Answer::Reply(0) => " (refused by the object)",
        _ => "",
    }
}

/// A command for a seat, with its number and its answer.
#[derive(Drop)]
struct Told {
    number: usize,
    seat: u8,
    command: Command,
    answer: Answer,
}

impl fmt::Display for Told {
    ghost use Rattle.std.specs.Prelude.{Some};
    ghost use Rattle.monk_commands.specs.Traced.{told_text};

    ghost output = { λ t. Some (told_text t.number (t.seat, t.command) t.answer) };

    fn fmt<W: fmt::Write>(&self, f: &mut fmt::Formatter<W>) -> fmt::Result {
        let refusal = refusal(self.answer);
        write!(
            f,
            "{} | {} {} | {}{refusal}",
            self.number, self.seat, self.command, self.answer
        )
    }
}

/// Writes a seat's place, its queue if it waits inside, and whether the grant it looks for is there.
fn put_place<K: Kind, T: Guarded>(
    page: &mut String,
    world: &World<K, T>,
    stand: SeatPlace,
    seat: u8,
) -> Result<(), AllocError>
    ensures { OnOk result
        ((stands : ℕ → SeatPlace) → stand ≡ stands seat
        → string_bytes page.new ≡ string_bytes page.old ++ seat_text (state_of_view world.now) stands seat) }
{
    if seat > 0 {
        page.push_str(", ")?;
    }
    write!(page, "{}{stand}", world.place(seat))?;
    if world.is_granted(seat) {
        page.push_str(" granted")?;
    }
    Ok(())
}

#[tactic(auto, unfolding(crate::specs::Traced::places_text))]
fn put_places<K: Kind, T: Guarded>(
    page: &mut String,
    world: &World<K, T>,
    queues: &QueueLists,
) -> Result<(), AllocError>
    ensures { OnOk result
        (string_bytes page.new ≡ string_bytes page.old
        ++ places_text (state_of_view world.now) (in_queues (queues_of queues.now))
        (state_of_view world.now).floor.seats) }
{
    for seat in 0..world.seats() {
        put_place(page, world, SeatPlace::in_queues(queues, seat), seat)?;
    }
    Ok(())
}

#[tactic(auto, unfolding(crate::specs::Traced::data_part))]
fn put_data<T: Listed>(
    alloc: Global,
    page: &mut String,
    name: ObjectName,
    object: &T,
) -> Result<(), AllocError>
    ensures { OnOk result (string_bytes page.new ≡ string_bytes page.old ++ data_part name (T.state object.now)) }
{
    let numbers = NumberList(data_numbers(alloc, object)?);
    write!(page, "data:{} | ", Data(name, &numbers))
}

/// Writes what comes first in a line: what the command came to, and the numbers of tickets after it.
#[tactic(auto, unfolding(crate::specs::Traced::line_front))]
fn put_front<K: Kind, T: Guarded>(
    page: &mut String,
    told: &Told,
    world: &World<K, T>,
) -> Result<(), AllocError>
    ensures { OnOk result
        (string_bytes page.new ≡ string_bytes page.old
        ++ line_front told.now.number (told.now.seat, told.now.command) told.now.answer (state_of_view world.now)) }
{
    let (drawn, unpassed) = (world.drawn(), world.unpassed());
    write!(page, "{told} | t={drawn} n={unpassed} | ")
}

/// Writes the line of a command, which has brought the world to where it is.
fn put_line<K: Kind, T: Listed>(
    alloc: Global,
    page: &mut String,
    told: &Told,
    world: &World<K, T>,
    follower: &Follower<T>,
    name: ObjectName,
) -> Result<(), AllocError>
    requires { All (λ w. w.1 < T.PREDICATES)
        (replay_situation follower.now.replay (T.state follower.now.object)).untils }
    ensures { OnOk result
        (string_bytes page.new ≡ string_bytes page.old
        ++ trace_line name (monitor K.rules 0 follower.now.conds T.meaning []) told.now.number
        (told.now.seat, told.now.command) told.now.answer (state_of_view world.now)
        (replay_situation follower.now.replay (T.state follower.now.object))) }
{
    put_front(page, told, world)?;
    put_data(alloc, page, name, &follower.object)?;
    let queues = QueueLists::of(
        alloc,
        rules_of::<K>().mode,
        follower.conds,
        &follower.replay,
        &follower.object,
    )?;
    put_places(page, world, &queues)?;
    page.push_str("\n")?;
    Ok(())
}

/// Writes what is on the page, which is empty then.
fn write_page<W: Write>(page: &mut String, writer: &mut Device<W>) -> Result<(), StreamFault>
    requires { has_failed writer.old ≡ false }
    ensures page { OnOk result (string_bytes page.new ≡ []) }
    ensures written { OnOk result
        (Appends (W.contents (inner_of writer.old)) (W.contents (inner_of writer.new)) (string_bytes page.old)) }
    ensures works { OnOk result (has_failed writer.new ≡ false) }
    ensures fails { IsReporting Report.Trace writer.old writer.new result }
{
    match writer.write_all(page.as_bytes()) {
        Ok(()) => {
            page.clear();
            Ok(())
        }
        Err(_) => Err(StreamFault::File),
    }
}

/// Writes what is on the page if that is full.
fn write_full_page<W: Write>(page: &mut String, writer: &mut Device<W>) -> Result<(), StreamFault>
    requires { has_failed writer.old ≡ false }
    ensures written { OnOk result
        ((gone : List ℕ) × (Appends (W.contents (inner_of writer.old)) (W.contents (inner_of writer.new)) gone
        × (string_bytes page.old ≡ gone ++ string_bytes page.new))) }
    ensures works { OnOk result (has_failed writer.new ≡ false) }
    ensures fails { IsReporting Report.Trace writer.old writer.new result }
{
    if page.len() < PAGE {
        return Ok(());
    }
    write_page(page, writer)
}

/// Carries out the commands that are left of the play, in order, and writes the lines of all of them.
fn write_lines<K: Kind, T: Listed, W: Write>(
    alloc: Global,
    world: &mut World<K, T>,
    follower: &mut Follower<T>,
    name: ObjectName,
    mut play: PlayLines<'_>,
    writer: &mut Device<W>,
) -> Result<(), StreamFault>
    requires works { has_failed writer.old ≡ false }
    requires behind { IsBehind (monitor_of K.rules T.meaning (state_of_view world.old).floor) T.PREDICATES
        follower.old.conds follower.old.replay (T.state follower.old.object) (state_of_view world.old).floor.history }
    requires few { length play.2 ≤ 2 ^ 25 }
    ensures traced { OnOk result
        ((text : List ℕ)
        × (AreTraced name (monitor_of K.rules T.meaning (state_of_view world.old).floor) 0
        (state_of_view world.old) play.entry.2 (state_of_view world.new) text
        × Appends (W.contents (inner_of writer.old)) (W.contents (inner_of writer.new)) text)) }
    ensures writing { IsReporting Report.Trace writer.old writer.new result }
{
    let mut page = String::new(alloc);
    let mut number = 0;
    while let Some((seat, command)) = play.next() {
        number += 1;
        let answer = follower.step(alloc, world, seat, command)?;
        let told = Told {
            number,
            seat,
            command,
            answer,
        };
        put_line(alloc, &mut page, &told, world, follower, name)?;
        write_full_page(&mut page, writer)?;
    }
    write_page(&mut page, writer)
}

/// Carries out the commands of the play in order, and writes their lines. The world hasn't begun, and the object equals
/// the world's own.
pub(crate) fn put_trace<K: Kind, T: Listed, W: Write>(
    alloc: Global,
    world: &mut World<K, T>,
    object: T,
    play: PlayLines<'_>,
    writer: &mut Device<W>,
) -> Result<(), StreamFault>
    requires works { has_failed writer.old ≡ false }
    requires few { length play.2 ≤ 2 ^ 25 }
    requires floor { (state_of_view world.old).floor ≡ empty_floor (T.state object) play.0.seats play.0.conds play.1 }
    ensures traced { OnOk result
        ((text : List ℕ)
        × (AreTraced play.entry.0.object
        (monitor K.rules play.entry.0.seats play.entry.0.conds T.meaning (T.state object)) 0
        (state_of_view world.old) play.entry.2 (state_of_view world.new) text
        × Appends (W.contents (inner_of writer.old)) (W.contents (inner_of writer.new)) text)) }
    ensures writing { IsReporting Report.Trace writer.old writer.new result }
{
    let header = play.header();
    let (seats, conds) = (header.seats(), header.conds());
    let replay = Replay::opening(alloc, seats, conds)?;
    let mut follower = Follower {
        replay,
        object,
        conds,
    };
    write_lines(alloc, world, &mut follower, header.object(), play, writer)
}
