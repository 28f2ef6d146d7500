//! Seats that a signal crossed on their way to sleep.

ghost use Rattle.std.specs.Prelude.{◌≡◌, ◌+◌, ◌≤◌, ◌^◌, ℕ, None, false, get_or, reverse, slice_index_or, if◌then◌else◌};
ghost use Rattle.monk_logs.specs.Crossed as crossings;
ghost use Rattle.monk_logs.specs.{LastLine.last_line, declared.subject.Subject.TheVariants.Seat};

use crate::subject::Subject;
use crate::text::line::LogLine;

/// How many seats a line can name: the numbers from 0 to 255.
pub const LINE_SEATS: usize = 256;

/// Seats that a signal crossed on their way to sleep.
#[derive(Clone, Copy, Debug, PartialEq, Eq)]
pub struct Crossed {
    /// How many there are, at least one.
    pub seats: usize,
    /// The last of the signals that crossed them. Lines are counted from 1 after the log's header.
    pub line: usize,
}

/// Whether the seat comes in with the line, or goes on.
fn begins(seat: u8, line: LogLine) -> bool
    ensures { result ≡ crossings.begins seat line }
{
    match line {
        LogLine::Enter(begun) | LogLine::Resume(begun) | LogLine::Lapse(begun) => begun == seat,
        _ => false,
    }
}

/// Whether the line is a signal to that condition by another seat.
fn crosses(seat: u8, cond: u8, line: LogLine) -> bool
    ensures { result ≡ crossings.crosses seat cond line }
{
    Subject::Condition(cond).has(line) && line.seat() != seat
}

/// Returns the number of the last such signal since the seat came in or went on.
fn last_crossing(before: &[LogLine], seat: u8, cond: u8) -> Option<usize>
    ensures { result ≡ crossings.crossing_in seat cond (reverse before.now) }
{
    let mut number = before.len();
    while number > 0 {
        let line = before[number - 1];
        if crosses(seat, cond, line) {
            return Some(number);
        }
        if begins(seat, line) {
            return None;
        }
        number -= 1;
    }
    None
}

/// Returns the number of the last line of each seat, counted from 1.
fn last_numbers(lines: &[LogLine]) -> [Option<usize>; LINE_SEATS]
    ensures { (s : ℕ) → get_or result s None ≡ last_line (Seat s) lines.now }
{
    let mut numbers = [None; LINE_SEATS];
    let mut number = 0;
    for line in lines {
        number += 1;
        numbers[usize::from(line.seat())] = Some(number);
    }
    numbers
}

/// Returns the number of the signal that crossed the seat. `number` is that of the seat's last line.
fn crossing_of(lines: &[LogLine], number: Option<usize>) -> Option<usize>
    ensures { (s : ℕ) → number ≡ last_line (Seat s) lines.now
        → result ≡ crossings.crossing s (reverse lines.now) }
{
    let (line, before) = lines.get(..number?)?.split_last()?;
    match *line {
        LogLine::Wait(seat, cond) => last_crossing(before, seat, cond),
        _ => None,
    }
}

/// Adds a seat if a signal crossed it. `signal` is that signal's number.
fn with_seat(signal: Option<usize>, found: Option<Crossed>) -> Option<Crossed>
    requires { crossings.number_crossed found ≤ 2 ^ 32 }
    ensures found { result ≡ crossings.with_seat signal found }
    ensures within { (n : ℕ) → crossings.number_crossed found ≤ n → crossings.number_crossed result ≤ n + 1 }
{
    match (signal, found) {
        (None, _) => found,
        (Some(line), None) => Some(Crossed { seats: 1, line }),
        (Some(line), Some(before)) => Some(Crossed {
            seats: before.seats + 1,
            line: before.line.max(line),
        }),
    }
}

/// Returns the number of the signal that crossed the seat, if it sleeps. `number` is that of the
/// seat's last line.
fn crossing_if(sleeps: bool, lines: &[LogLine], number: Option<usize>) -> Option<usize>
    ensures { (s : ℕ) → number ≡ last_line (Seat s) lines.now
        → result ≡ (if sleeps then crossings.crossing s (reverse lines.now) else None) }
{
    if sleeps {
        crossing_of(lines, number)
    } else {
        None
    }
}

/// Finds the seats that a signal crossed on their way to sleep. `sleeps` says of each seat whether
/// it sleeps after the lines. The last line of such a seat is a `wait`. Before that line, and after
/// its last `enter`, `resume` or `lapse`, another seat signals to the condition, to one or to all. A
/// seat that keeps the rules of a monitor can't do that. So only a program that signals without the
/// lock has such seats. They may sleep for ever: the signal came between their test and their wait.
///
/// # Cost
///
/// One pass over the lines. Also one pass over the lines of its last visit for each seat whose last line is a `wait`.
pub fn find_crossed(lines: &[LogLine], sleeps: &[bool; LINE_SEATS]) -> Option<Crossed>
    ensures { result ≡ crossings.crossed_of (λ s. slice_index_or sleeps.now s false) lines.now }
{
    let numbers = last_numbers(lines);
    let mut found = None;
    for (seat, number) in numbers.iter().enumerate() {
        found = with_seat(crossing_if(sleeps[seat], lines, *number), found);
    }
    found
}
