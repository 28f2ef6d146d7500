//! Reads the line of a log at the front of some bytes, without a search for the line's end. The
//! line must be short, and each of its seats, conditions, predicates and codes must have at most
//! two digits. Recorders write such lines.

ghost use Rattle.std.specs.Prelude.{◌∷◌, [], ◌+◌, ◌≤◌, IfSome, length, codes, decimal};
ghost use Rattle.monk_history.specs.Text.{Lines.line, Places.StandsAt};
ghost use Rattle.monk_logs.specs.Log.{LineFits, log_words};

use crate::text::line::LogLine;
use monk_history::lines::places::{
    four_stand_at, number_at, one_stands_at, short_number_at, two_stand_at,
};
use monk_object::Op;

/// The greatest length of a line that is read here.
pub(crate) const WINDOW: usize = 32;

/// Returns the line at the front, and the place after it.
#[inline(always)]
pub(crate) fn line_at_front(bytes: &[u8]) -> Option<(LogLine, usize)>
    requires window { WINDOW ≤ length bytes.now }
    ensures stands { IfSome result (λ r. StandsAt bytes.now 0 (line (log_words r.0)) r.1) }
    ensures fits { IfSome result (λ r. LineFits r.0) }
{
    if four_stand_at(bytes, 0, *b"act ") {
        act(bytes)
    } else if four_stand_at(bytes, 0, *b"ente") {
        enter(bytes)
    } else if four_stand_at(bytes, 0, *b"leav") {
        leave(bytes)
    } else if four_stand_at(bytes, 0, *b"resu") {
        resume(bytes)
    } else if four_stand_at(bytes, 0, *b"wait") {
        wait(bytes)
    } else if four_stand_at(bytes, 0, *b"sign") {
        signal(bytes)
    } else {
        rare_line(bytes)
    }
}

/// Reads a line with a verb that most logs use seldom or never.
#[inline(always)]
fn rare_line(bytes: &[u8]) -> Option<(LogLine, usize)>
    requires window { WINDOW ≤ length bytes.now }
    ensures stands { IfSome result (λ r. StandsAt bytes.now 0 (line (log_words r.0)) r.1) }
    ensures fits { IfSome result (λ r. LineFits r.0) }
{
    if four_stand_at(bytes, 0, *b"broa") {
        broadcast(bytes)
    } else if four_stand_at(bytes, 0, *b"laps") {
        lapse(bytes)
    } else if four_stand_at(bytes, 0, *b"unti") {
        until(bytes)
    } else {
        None
    }
}

#[inline(always)]
fn act(bytes: &[u8]) -> Option<(LogLine, usize)>
    requires window { WINDOW ≤ length bytes.now }
    requires begins { StandsAt bytes.now 0 (codes "act ") 4 }
    ensures stands { IfSome result (λ r. StandsAt bytes.now 0 (line (log_words r.0)) r.1) }
    ensures fits { IfSome result (λ r. LineFits r.0) }
{
    let (seat, place) = short_number_at(bytes, 4, b' ')?;
    let (code, place) = short_number_at(bytes, place, b' ')?;
    let (arg, place) = number_at(bytes, place, b' ')?;
    let (reply, place) = number_at(bytes, place, b'\n')?;
    if arg > u64::from(u32::MAX) {
        return None;
    }
    let op = Op {
        code,
        arg: arg as u32,
    };
    Some((LogLine::Act(seat, op, reply), place))
}

#[inline(always)]
fn enter(bytes: &[u8]) -> Option<(LogLine, usize)>
    requires window { WINDOW ≤ length bytes.now }
    requires begins { StandsAt bytes.now 0 (codes "ente") 4 }
    ensures stands { IfSome result (λ r. StandsAt bytes.now 0 (line (log_words r.0)) r.1) }
    ensures fits { IfSome result (λ r. LineFits r.0) }
{
    if !two_stand_at(bytes, 4, *b"r ") {
        return None;
    }
    let (seat, place) = short_number_at(bytes, 6, b'\n')?;
    Some((LogLine::Enter(seat), place))
}

#[inline(always)]
fn leave(bytes: &[u8]) -> Option<(LogLine, usize)>
    requires window { WINDOW ≤ length bytes.now }
    requires begins { StandsAt bytes.now 0 (codes "leav") 4 }
    ensures stands { IfSome result (λ r. StandsAt bytes.now 0 (line (log_words r.0)) r.1) }
    ensures fits { IfSome result (λ r. LineFits r.0) }
{
    if !two_stand_at(bytes, 4, *b"e ") {
        return None;
    }
    let (seat, place) = short_number_at(bytes, 6, b'\n')?;
    Some((LogLine::Leave(seat), place))
}

#[inline(always)]
fn resume(bytes: &[u8]) -> Option<(LogLine, usize)>
    requires window { WINDOW ≤ length bytes.now }
    requires begins { StandsAt bytes.now 0 (codes "resu") 4 }
    ensures stands { IfSome result (λ r. StandsAt bytes.now 0 (line (log_words r.0)) r.1) }
    ensures fits { IfSome result (λ r. LineFits r.0) }
{
    if !(two_stand_at(bytes, 4, *b"me") && one_stands_at(bytes, 6, b' ')) {
        return None;
    }
    let (seat, place) = short_number_at(bytes, 7, b'\n')?;
    Some((LogLine::Resume(seat), place))
}

#[inline(always)]
fn wait(bytes: &[u8]) -> Option<(LogLine, usize)>
    requires window { WINDOW ≤ length bytes.now }
    requires begins { StandsAt bytes.now 0 (codes "wait") 4 }
    ensures stands { IfSome result (λ r. StandsAt bytes.now 0 (line (log_words r.0)) r.1) }
    ensures fits { IfSome result (λ r. LineFits r.0) }
{
    if !one_stands_at(bytes, 4, b' ') {
        return None;
    }
    let (seat, cond, place) = two_numbers_at(bytes, 5)?;
    Some((LogLine::Wait(seat, cond), place))
}

#[inline(always)]
fn signal(bytes: &[u8]) -> Option<(LogLine, usize)>
    requires window { WINDOW ≤ length bytes.now }
    requires begins { StandsAt bytes.now 0 (codes "sign") 4 }
    ensures stands { IfSome result (λ r. StandsAt bytes.now 0 (line (log_words r.0)) r.1) }
    ensures fits { IfSome result (λ r. LineFits r.0) }
{
    if !(two_stand_at(bytes, 4, *b"al") && one_stands_at(bytes, 6, b' ')) {
        return None;
    }
    let (seat, cond, place) = two_numbers_at(bytes, 7)?;
    Some((LogLine::Signal(seat, cond), place))
}

#[inline(always)]
fn broadcast(bytes: &[u8]) -> Option<(LogLine, usize)>
    requires window { WINDOW ≤ length bytes.now }
    requires begins { StandsAt bytes.now 0 (codes "broa") 4 }
    ensures stands { IfSome result (λ r. StandsAt bytes.now 0 (line (log_words r.0)) r.1) }
    ensures fits { IfSome result (λ r. LineFits r.0) }
{
    if !(four_stand_at(bytes, 4, *b"dcas") && two_stand_at(bytes, 8, *b"t ")) {
        return None;
    }
    let (seat, cond, place) = two_numbers_at(bytes, 10)?;
    Some((LogLine::Broadcast(seat, cond), place))
}

#[inline(always)]
fn lapse(bytes: &[u8]) -> Option<(LogLine, usize)>
    requires window { WINDOW ≤ length bytes.now }
    requires begins { StandsAt bytes.now 0 (codes "laps") 4 }
    ensures stands { IfSome result (λ r. StandsAt bytes.now 0 (line (log_words r.0)) r.1) }
    ensures fits { IfSome result (λ r. LineFits r.0) }
{
    if !two_stand_at(bytes, 4, *b"e ") {
        return None;
    }
    let (seat, place) = short_number_at(bytes, 6, b'\n')?;
    Some((LogLine::Lapse(seat), place))
}

#[inline(always)]
fn until(bytes: &[u8]) -> Option<(LogLine, usize)>
    requires window { WINDOW ≤ length bytes.now }
    requires begins { StandsAt bytes.now 0 (codes "unti") 4 }
    ensures stands { IfSome result (λ r. StandsAt bytes.now 0 (line (log_words r.0)) r.1) }
    ensures fits { IfSome result (λ r. LineFits r.0) }
{
    if !two_stand_at(bytes, 4, *b"l ") {
        return None;
    }
    let (seat, pred, place) = two_numbers_at(bytes, 6)?;
    Some((LogLine::Until(seat, pred), place))
}

/// Reads a seat and a condition or a predicate, up to the line's end.
#[inline(always)]
fn two_numbers_at(bytes: &[u8], place: usize) -> Option<(u8, u8, usize)>
    requires { place + 6 ≤ length bytes.now }
    ensures stands { IfSome result (λ r. StandsAt bytes.now place (line (decimal r.0 ∷ decimal r.1 ∷ [])) r.2) }
{
    let (first, place) = short_number_at(bytes, place, b' ')?;
    let (second, place) = short_number_at(bytes, place, b'\n')?;
    Some((first, second, place))
}
