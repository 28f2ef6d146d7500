//! Reads an event whose line is at the front of some bytes, without a search for the line's end. The line must be
//! short, and each of its seats, conditions, predicates and codes must have at most two digits. Lines of legal
//! histories are so.

ghost use Rattle.std.specs.Prelude.{◌≡◌, ◌∷◌, [], ◌+◌, ◌≤◌, IfSome, length, codes, decimal};
ghost use Rattle.monk_history.specs.Text.{event_words, next_words, from_word, EventFits, first_version, Lines.line};
ghost use Rattle.monk_history.specs.Text.Places.{StandsAt};

use crate::event::{Event, From3, Next, Via};
use crate::limits::ALL_EVENTS_VERSION;
use crate::text::lines::places::{
    four_stand_at, number_at, one_stands_at, short_number_at, two_stand_at,
};
use monk_object::Op;

/// The most bytes of a line that is read here.
pub(crate) const WINDOW: usize = 64;

/// Returns the event whose line is at the front, and the place after the line.
///
/// Nothing here looks at the type `Caller`. The compiler makes code for each type, and inlines what is called from
/// only one place. So a caller who names a type of its own needs no call for a line.
#[inline(always)]
pub(crate) fn event_at_front<Caller>(bytes: &[u8], version: u8) -> Option<(Event, usize)>
    requires version { 1 ≤ version }
    requires window { WINDOW ≤ length bytes.now }
    ensures stands { IfSome result (λ r. StandsAt bytes.now 0 (line (event_words r.0)) r.1) }
    ensures fits { IfSome result (λ r. EventFits r.0) }
    ensures has { IfSome result (λ r. first_version r.0 ≤ version) }
{
    if four_stand_at(bytes, 0, *b"act ") {
        act(bytes)
    } else if four_stand_at(bytes, 0, *b"ente") {
        enter(bytes)
    } else if four_stand_at(bytes, 0, *b"leav") {
        leave(bytes)
    } else if four_stand_at(bytes, 0, *b"sign") {
        any_signal::<Caller>(bytes, version)
    } else if four_stand_at(bytes, 0, *b"resu") {
        resume(bytes)
    } else if four_stand_at(bytes, 0, *b"wait") {
        wait(bytes)
    } else if four_stand_at(bytes, 0, *b"unti") {
        until(bytes)
    } else {
        None
    }
}

#[inline(always)]
fn act(bytes: &[u8]) -> Option<(Event, usize)>
    requires window { WINDOW ≤ length bytes.now }
    requires begins { StandsAt bytes.now 0 (codes "act ") 4 }
    ensures stands { IfSome result (λ r. StandsAt bytes.now 0 (line (event_words r.0)) r.1) }
    ensures fits { IfSome result (λ r. EventFits r.0) }
    ensures has { IfSome result (λ r. first_version r.0 ≡ 1) }
{
    let (seat, place) = short_number_at(bytes, 4, b' ')?;
    let (code, place) = short_number_at(bytes, place, b' ')?;
    let (arg, place) = number_at(bytes, place, b' ')?;
    let (reply, place) = number_at(bytes, place, b'\n')?;
    if arg > u64::from(u32::MAX) {
        return None;
    }
    let op = Op {
        code,
        arg: arg as u32,
    };
    Some((Event::Act(seat, op, reply), place))
}

#[inline(always)]
fn enter(bytes: &[u8]) -> Option<(Event, usize)>
    requires window { WINDOW ≤ length bytes.now }
    requires begins { StandsAt bytes.now 0 (codes "ente") 4 }
    ensures stands { IfSome result (λ r. StandsAt bytes.now 0 (line (event_words r.0)) r.1) }
    ensures fits { IfSome result (λ r. EventFits r.0) }
    ensures has { IfSome result (λ r. first_version r.0 ≡ 1) }
{
    if !two_stand_at(bytes, 4, *b"r ") {
        return None;
    }
    let (seat, place) = short_number_at(bytes, 6, b' ')?;
    if four_stand_at(bytes, place, *b"free") && one_stands_at(bytes, place + 4, b'\n') {
        Some((Event::Enter(seat, Via::Free), place + 5))
    } else if four_stand_at(bytes, place, *b"hand")
        && two_stand_at(bytes, place + 4, *b"ed")
        && one_stands_at(bytes, place + 6, b'\n')
    {
        Some((Event::Enter(seat, Via::Handed), place + 7))
    } else {
        None
    }
}

#[inline(always)]
fn leave(bytes: &[u8]) -> Option<(Event, usize)>
    requires window { WINDOW ≤ length bytes.now }
    requires begins { StandsAt bytes.now 0 (codes "leav") 4 }
    ensures stands { IfSome result (λ r. StandsAt bytes.now 0 (line (event_words r.0)) r.1) }
    ensures fits { IfSome result (λ r. EventFits r.0) }
    ensures has { IfSome result (λ r. first_version r.0 ≡ 1) }
{
    if !two_stand_at(bytes, 4, *b"e ") {
        return None;
    }
    let (seat, place) = short_number_at(bytes, 6, b' ')?;
    let (next, place) = next_at(bytes, place)?;
    Some((Event::Leave(seat, next), place))
}

/// Reads a line that begins with `sign`.
#[inline(always)]
fn any_signal<Caller>(bytes: &[u8], version: u8) -> Option<(Event, usize)>
    requires window { WINDOW ≤ length bytes.now }
    requires version { 1 ≤ version }
    requires begins { StandsAt bytes.now 0 (codes "sign") 4 }
    ensures stands { IfSome result (λ r. StandsAt bytes.now 0 (line (event_words r.0)) r.1) }
    ensures fits { IfSome result (λ r. EventFits r.0) }
    ensures has { IfSome result (λ r. first_version r.0 ≤ version) }
{
    if two_stand_at(bytes, 4, *b"al") && one_stands_at(bytes, 6, b' ') {
        let (seat, cond, next, place) = call_at(bytes, 7)?;
        Some((Event::Signal(seat, cond, next), place))
    } else if four_stand_at(bytes, 4, *b"al-l")
        && four_stand_at(bytes, 8, *b"eave")
        && one_stands_at(bytes, 12, b' ')
    {
        let (seat, cond, next, place) = call_at(bytes, 13)?;
        Some((Event::SignalLeave(seat, cond, next), place))
    } else if version >= ALL_EVENTS_VERSION {
        later_signal(bytes)
    } else {
        None
    }
}

/// Reads a line that begins with `sign` and whose event came with version 2.
#[inline(always)]
fn later_signal(bytes: &[u8]) -> Option<(Event, usize)>
    requires window { WINDOW ≤ length bytes.now }
    requires begins { StandsAt bytes.now 0 (codes "sign") 4 }
    ensures stands { IfSome result (λ r. StandsAt bytes.now 0 (line (event_words r.0)) r.1) }
    ensures fits { IfSome result (λ r. EventFits r.0) }
    ensures has { IfSome result (λ r. first_version r.0 ≡ 2) }
{
    if four_stand_at(bytes, 4, *b"al-a")
        && two_stand_at(bytes, 8, *b"ll")
        && one_stands_at(bytes, 10, b' ')
    {
        let (seat, place) = short_number_at(bytes, 11, b' ')?;
        let (cond, place) = short_number_at(bytes, place, b'\n')?;
        Some((Event::SignalAll(seat, cond), place))
    } else if four_stand_at(bytes, 4, *b"al-w") && four_stand_at(bytes, 8, *b"ait ") {
        let (seat, place) = short_number_at(bytes, 12, b' ')?;
        let (cond, wait_cond, next, place) = call_at(bytes, place)?;
        Some((Event::SignalWait(seat, cond, wait_cond, next), place))
    } else {
        None
    }
}

#[inline(always)]
fn resume(bytes: &[u8]) -> Option<(Event, usize)>
    requires window { WINDOW ≤ length bytes.now }
    requires begins { StandsAt bytes.now 0 (codes "resu") 4 }
    ensures stands { IfSome result (λ r. StandsAt bytes.now 0 (line (event_words r.0)) r.1) }
    ensures fits { IfSome result (λ r. EventFits r.0) }
    ensures has { IfSome result (λ r. first_version r.0 ≡ 1) }
{
    if !(two_stand_at(bytes, 4, *b"me") && one_stands_at(bytes, 6, b' ')) {
        return None;
    }
    let (seat, place) = short_number_at(bytes, 7, b' ')?;
    let (queue, place) = from_at(bytes, place)?;
    Some((Event::Resume(seat, queue), place))
}

#[inline(always)]
fn wait(bytes: &[u8]) -> Option<(Event, usize)>
    requires window { WINDOW ≤ length bytes.now }
    requires begins { StandsAt bytes.now 0 (codes "wait") 4 }
    ensures stands { IfSome result (λ r. StandsAt bytes.now 0 (line (event_words r.0)) r.1) }
    ensures fits { IfSome result (λ r. EventFits r.0) }
    ensures has { IfSome result (λ r. first_version r.0 ≡ 1) }
{
    if !one_stands_at(bytes, 4, b' ') {
        return None;
    }
    let (seat, cond, next, place) = call_at(bytes, 5)?;
    Some((Event::Wait(seat, cond, next), place))
}

#[inline(always)]
fn until(bytes: &[u8]) -> Option<(Event, usize)>
    requires window { WINDOW ≤ length bytes.now }
    requires begins { StandsAt bytes.now 0 (codes "unti") 4 }
    ensures stands { IfSome result (λ r. StandsAt bytes.now 0 (line (event_words r.0)) r.1) }
    ensures fits { IfSome result (λ r. EventFits r.0) }
    ensures has { IfSome result (λ r. first_version r.0 ≡ 1) }
{
    if !two_stand_at(bytes, 4, *b"l ") {
        return None;
    }
    let (seat, pred, next, place) = call_at(bytes, 6)?;
    Some((Event::Until(seat, pred, next), place))
}

/// Reads two numbers (a seat, and a condition or a predicate) and a next, up to the line's end.
#[inline(always)]
fn call_at(bytes: &[u8], place: usize) -> Option<(u8, u8, Next, usize)>
    requires { place + 20 ≤ length bytes.now }
    ensures stands { IfSome result (λ r. StandsAt bytes.now place
        (line (decimal r.0 ∷ decimal r.1 ∷ next_words r.2)) r.3) }
{
    let (first, place) = short_number_at(bytes, place, b' ')?;
    let (second, place) = short_number_at(bytes, place, b' ')?;
    let (next, place) = next_at(bytes, place)?;
    Some((first, second, next, place))
}

/// Reads the queue of a resume, up to the line's end.
#[inline(always)]
fn from_at(bytes: &[u8], place: usize) -> Option<(From3, usize)>
    requires { place + 10 ≤ length bytes.now }
    ensures stands { IfSome result (λ r. StandsAt bytes.now place (line (from_word r.0 ∷ [])) r.1) }
{
    if four_stand_at(bytes, place, *b"wait")
        && two_stand_at(bytes, place + 4, *b"er")
        && one_stands_at(bytes, place + 6, b'\n')
    {
        Some((From3::Waiter, place + 7))
    } else if four_stand_at(bytes, place, *b"sign")
        && four_stand_at(bytes, place + 4, *b"alle")
        && two_stand_at(bytes, place + 8, *b"r\n")
    {
        Some((From3::Signaller, place + 10))
    } else if four_stand_at(bytes, place, *b"unti") && two_stand_at(bytes, place + 4, *b"l\n") {
        Some((From3::Until, place + 6))
    } else {
        None
    }
}

/// Reads a next, up to the line's end.
#[inline(always)]
fn next_at(bytes: &[u8], place: usize) -> Option<(Next, usize)>
    requires { place + 13 ≤ length bytes.now }
    ensures stands { IfSome result (λ r. StandsAt bytes.now place (line (next_words r.0)) r.1) }
{
    if four_stand_at(bytes, place, *b"entr") && two_stand_at(bytes, place + 4, *b"y\n") {
        Some((Next::Entry, place + 6))
    } else if four_stand_at(bytes, place, *b"stay") && one_stands_at(bytes, place + 4, b'\n') {
        Some((Next::Stay, place + 5))
    } else {
        chosen_at(bytes, place)
    }
}

/// Reads a next that chooses a seat, up to the line's end.
#[inline(always)]
fn chosen_at(bytes: &[u8], place: usize) -> Option<(Next, usize)>
    requires { place + 13 ≤ length bytes.now }
    ensures stands { IfSome result (λ r. StandsAt bytes.now place (line (next_words r.0)) r.1) }
{
    if four_stand_at(bytes, place, *b"wait")
        && two_stand_at(bytes, place + 4, *b"er")
        && one_stands_at(bytes, place + 6, b' ')
    {
        let (seat, behind) = short_number_at(bytes, place + 7, b'\n')?;
        Some((Next::Waiter(seat), behind))
    } else if four_stand_at(bytes, place, *b"sign")
        && four_stand_at(bytes, place + 4, *b"alle")
        && two_stand_at(bytes, place + 8, *b"r ")
    {
        let (seat, behind) = short_number_at(bytes, place + 10, b'\n')?;
        Some((Next::Signaller(seat), behind))
    } else if four_stand_at(bytes, place, *b"unti") && two_stand_at(bytes, place + 4, *b"l ") {
        let (seat, behind) = short_number_at(bytes, place + 6, b'\n')?;
        Some((Next::Until(seat), behind))
    } else {
        None
    }
}
