//! An event in words, for a picture of text.

use crate::label::act_word;
use crate::names::Names;
use monk_history::{Event, Header};
use monk_object::{Buffer, Flags, ObjectName, Op};
use monk_tell::call_word;
use std::alloc::AllocError;

/// Writes the name of a condition or a predicate, or its number.
fn put_name(line: &mut String, names: Names<'_>, number: u8) -> Result<(), AllocError> {
    match names.conditions.get(usize::from(number)) {
        Some(name) => write!(line, " {name}"),
        None => write!(line, " {number}"),
    }
}

/// Writes the bits of the flags, as many as there are flags, or more if higher bits are set.
fn put_bits(line: &mut String, bits: u32, size: u8) -> Result<(), AllocError> {
    line.push_str(" ")?;
    for bit in (0..32u32).rev() {
        let rest = bits >> bit;
        if bit < u32::from(size) || rest > 0 {
            line.push_str(if rest % 2 == 1 { "1" } else { "0" })?;
        }
    }
    Ok(())
}

/// Writes what an act was called with or what it brought, if its object has that.
fn put_item(line: &mut String, header: &Header, op: Op, reply: u64) -> Result<(), AllocError> {
    match (header.object(), op.code) {
        (ObjectName::Buffer, Buffer::PUT) => write!(line, " {}", op.arg),
        (ObjectName::Buffer, Buffer::TAKE) if reply > 0 => write!(line, " {}", reply - 1),
        (ObjectName::Flags, Flags::SET) => put_bits(line, op.arg, header.size()),
        _ => Ok(()),
    }
}

fn put_act(line: &mut String, header: &Header, op: Op, reply: u64) -> Result<(), AllocError> {
    line.push_str(act_word(header.object(), op.code))?;
    put_item(line, header, op, reply)?;
    line.push_str(if reply == 0 { "?" } else { "" })
}

/// Writes the words of an event: what it is, and on which condition. An act that was refused has a question mark.
pub(crate) fn put_words(
    line: &mut String,
    header: &Header,
    names: Names<'_>,
    event: Event,
) -> Result<(), AllocError> {
    if let Event::Act(_, op, reply) = event {
        return put_act(line, header, op, reply);
    }
    line.push_str(call_word(event))?;
    match event {
        Event::Wait(_, number, _)
        | Event::Signal(_, number, _)
        | Event::SignalLeave(_, number, _)
        | Event::SignalAll(_, number)
        | Event::Until(_, number, _) => put_name(line, names, number),
        Event::SignalWait(_, cond, wait_cond, _) => {
            put_name(line, names, cond)?;
            put_name(line, names, wait_cond)
        }
        _ => Ok(()),
    }
}
