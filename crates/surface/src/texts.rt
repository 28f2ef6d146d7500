//! Histories and their texts.
ghost use Rattle.std.specs.Prelude.{◌≡◌, ◌≤◌, false, IsTrue};
ghost use Rattle.monk_history.specs.{Limits.most_lines, Text.is_writable, Text.Device.has_failed};

use monk_history::{
    Device, Event, From3, Header, Next, ReadFault, Via, WriteFault, read, read_limited, writable,
    write,
};
use monk_kinds::KindName;
use monk_object::{ObjectName, Op};
use std::alloc::Global;
use std::io::{Read, Write};

/// The ten events. The seat comes first.
pub fn seat_of(event: Event) -> u8 {
    match event {
        Event::Enter(seat, Via::Free | Via::Handed) => seat,
        Event::Act(seat, Op { code: _, arg: _ }, _) => seat,
        Event::Leave(seat, _) => seat,
        Event::Wait(seat, _, _) => seat,
        Event::Signal(seat, _, _) => seat,
        Event::SignalLeave(seat, _, _) => seat,
        Event::Until(seat, _, _) => seat,
        Event::Resume(seat, From3::Waiter | From3::Signaller | From3::Until) => seat,
        Event::SignalAll(seat, _) => seat,
        Event::SignalWait(seat, _, _, _) => seat,
    }
}

/// The condition or the predicate comes second. Of two conditions, this is the second one.
pub fn second_of(event: Event) -> Option<u8> {
    match event {
        Event::Wait(_, cond, _) => Some(cond),
        Event::Signal(_, cond, _) => Some(cond),
        Event::SignalLeave(_, cond, _) => Some(cond),
        Event::SignalAll(_, cond) => Some(cond),
        Event::SignalWait(_, _, cond, _) => Some(cond),
        Event::Until(_, pred, _) => Some(pred),
        Event::Enter(..) | Event::Act(..) | Event::Leave(..) | Event::Resume(..) => None,
    }
}

/// The choice comes last.
pub fn choice_of(event: Event) -> Option<Next> {
    match event {
        Event::Leave(_, next) => Some(next),
        Event::Wait(_, _, next) => Some(next),
        Event::Signal(_, _, next) => Some(next),
        Event::SignalLeave(_, _, next) => Some(next),
        Event::Until(_, _, next) => Some(next),
        Event::SignalWait(_, _, _, next) => Some(next),
        Event::Enter(..) | Event::Act(..) | Event::Resume(..) | Event::SignalAll(..) => None,
    }
}

/// The reply of an act comes last.
pub fn reply_of(event: Event) -> Option<u64> {
    match event {
        Event::Act(_, _, reply) => Some(reply),
        _ => None,
    }
}

/// The five choices.
pub fn chosen_seat(next: Next) -> Option<u8> {
    match next {
        Next::Stay | Next::Entry => None,
        Next::Waiter(seat) => Some(seat),
        Next::Signaller(seat) => Some(seat),
        Next::Until(seat) => Some(seat),
    }
}

pub fn header(
    kind: KindName,
    seats: u8,
    conds: u8,
    object: ObjectName,
    size: u8,
) -> Option<Header> {
    Header::new(kind, seats, conds, object, size)
}

/// Reads each part of a header.
pub fn parts_of_header(header: &Header) -> (KindName, u8, u8, ObjectName, u8) {
    (
        header.kind(),
        header.seats(),
        header.conds(),
        header.object(),
        header.size(),
    )
}

pub fn version_of(header: &Header) -> u8 {
    header.version()
}

pub fn upgraded(header: &Header) -> Header {
    header.upgraded()
}

pub fn read_whole(alloc: Global, bytes: &[u8]) -> Result<(Header, Vec<Event>), ReadFault> {
    read(alloc, bytes)
}

pub fn read_some(alloc: Global, bytes: &[u8], limit: u32) -> Result<(Header, Vec<Event>), ReadFault>
    requires { limit ≤ most_lines }
{
    read_limited(alloc, bytes, limit)
}

pub fn may_be_written(header: &Header, events: &[Event]) -> bool {
    writable(header, events)
}

pub fn write_whole<W: Write>(
    header: &Header,
    events: &[Event],
    out: &mut Device<W>,
) -> Result<(), WriteFault>
    requires sound { has_failed out.old ≡ false }
    requires writable { IsTrue (is_writable header.now events.now) }
{
    write(header, events, out)
}

pub fn device<D>(inner: D) -> Device<D> {
    Device::new(inner)
}

pub fn has_device_failed<D>(device: &Device<D>) -> bool {
    device.failed()
}

/// A device reads if its inner value does, and writes if that does.
pub fn passes_on<R: Read, W: Write>() {
    is_reader::<Device<R>>();
    is_writer::<Device<W>>();
}

pub fn is_reader<R: Read>() {}

pub fn is_writer<W: Write>() {}
