//! Who goes on first, by the priorities and the queues.

ghost use Rattle.std.specs.Prelude.{Some};
ghost use Rattle.monk_tell.specs.Why.{precedence_text};

use crate::said::queue_word;
use monk_history::From3;
use monk_kinds::KindName;
use std::fmt;

/// Who goes on first, by the priorities and the queues.
#[derive(Clone, Copy, Debug)]
pub enum Precedence {
    /// The seat isn't the first of that queue.
    NotFirst(u8, From3),
    /// That queue is empty.
    NobodyIn(From3),
    /// The seat isn't the first whose predicate holds.
    NotReady(u8),
    /// Nobody waits whose predicate holds.
    NobodyReady,
    /// The kind puts waiters above signallers, and the seat is the first waiter.
    WaitersFirst(u8, KindName),
    /// The kind puts signallers above waiters, and the seat is the first signaller.
    SignallersFirst(u8, KindName),
    /// The kind puts waiters above entry, and the seat is the first waiter.
    WaitersBeforeEntry(u8, KindName),
    /// The kind puts signallers above entry, and the seat is the first signaller.
    SignallersBeforeEntry(u8, KindName),
    /// The kind puts those whose predicate holds above entry, and the seat is the first of them.
    ReadyBeforeEntry(u8, KindName),
}

impl fmt::Display for Precedence {
    ghost output = { λ w. Some (precedence_text w) };

    fn fmt<W: fmt::Write>(&self, f: &mut fmt::Formatter<W>) -> fmt::Result {
        match *self {
            Precedence::NotFirst(seat, queue) => write!(
                f,
                "seat {seat} isn't the first of the {} queue",
                queue_word(queue)
            ),
            Precedence::NobodyIn(queue) => write!(f, "the {} queue is empty", queue_word(queue)),
            Precedence::NotReady(seat) => write!(
                f,
                "seat {seat} isn't the first of those whose predicate holds"
            ),
            Precedence::NobodyReady => write!(f, "there is nobody whose predicate holds"),
            Precedence::WaitersFirst(seat, kind) => write!(
                f,
                "waiter {seat} has to go on first, since {} puts waiters above signallers",
                kind.as_str()
            ),
            Precedence::SignallersFirst(seat, kind) => write!(
                f,
                "signaller {seat} has to go on first, since {} puts signallers above waiters",
                kind.as_str()
            ),
            Precedence::WaitersBeforeEntry(seat, kind) => write!(
                f,
                "waiter {seat} has to go on first, since {} puts waiters above entry",
                kind.as_str()
            ),
            Precedence::SignallersBeforeEntry(seat, kind) => write!(
                f,
                "signaller {seat} has to go on first, since {} puts signallers above entry",
                kind.as_str()
            ),
            Precedence::ReadyBeforeEntry(seat, kind) => write!(
                f,
                "seat {seat} has to go on first, since its predicate holds and {} puts it above entry",
                kind.as_str()
            ),
        }
    }
}
