//! The words for an event, and endings of words.

use monk_history::Event;
use monk_object::{Book, Buffer, Flags, ObjectName, Shop};
use monk_tell::{call_word, queue_word, via_word};
use std::alloc::AllocError;

/// Returns the ending of a word for `number` things.
pub(crate) fn plural(number: usize) -> &'static str {
    if number == 1 { "" } else { "s" }
}

/// Returns the name of an operation of the object.
pub(crate) fn act_word(object: ObjectName, code: u8) -> &'static str {
    match (object, code) {
        (ObjectName::Buffer, Buffer::PUT) => "put",
        (ObjectName::Buffer, Buffer::TAKE) => "take",
        (ObjectName::Book, Book::START_READ) => "start read",
        (ObjectName::Book, Book::END_READ) => "end read",
        (ObjectName::Book, Book::START_WRITE) => "start write",
        (ObjectName::Book, Book::END_WRITE) => "end write",
        (ObjectName::Shop, Shop::SIT) => "sit",
        (ObjectName::Shop, Shop::CALL) => "call",
        (ObjectName::Shop, Shop::FINISH) => "finish",
        (ObjectName::Shop, Shop::DEPART) => "depart",
        (ObjectName::Flags, Flags::SET) => "set",
        _ => "act",
    }
}

/// Returns what the event is, in a word or two.
pub(crate) fn event_word(object: ObjectName, event: Event) -> &'static str {
    match event {
        Event::Act(_, op, _) => act_word(object, op.code),
        Event::SignalLeave(..) => "signal, leave",
        Event::SignalAll(..) => "signal all",
        Event::SignalWait(..) => "signal, wait",
        _ => call_word(event),
    }
}

/// Writes the numbers that belong to the event. For an act: its argument, unless that is 0, and its reply.
pub(crate) fn put_note(page: &mut String, event: Event) -> Result<(), AllocError> {
    match event {
        Event::Enter(_, via) => page.push_str(via_word(via)),
        Event::Act(_, op, reply) if op.arg == 0 => write!(page, "replied {reply}"),
        Event::Act(_, op, reply) => write!(page, "{}, replied {reply}", op.arg),
        Event::Leave(..) => Ok(()),
        Event::Wait(_, cond, _)
        | Event::Signal(_, cond, _)
        | Event::SignalLeave(_, cond, _)
        | Event::SignalAll(_, cond) => write!(page, "c{cond}"),
        Event::Until(_, pred, _) => write!(page, "p{pred}"),
        Event::Resume(_, queue) => page.push_str(queue_word(queue)),
        Event::SignalWait(_, cond, wait_cond, _) => write!(page, "c{cond}, c{wait_cond}"),
    }
}
