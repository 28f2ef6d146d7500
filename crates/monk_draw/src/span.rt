//! Which events are shown.

ghost use Rattle.std.specs.Prelude.{◌≡◌, ◌≤◌};
ghost use Rattle.monk_draw.specs.Window.{is_behind, not_shown, showable, shown_last};

use crate::window::Window;

/// The most events that are shown if no window is asked for.
pub const MOST_SHOWN: usize = 200;

/// Returns how many of `count` events can be shown: those up to the forbidden one, if there is one, else all.
pub fn showable(forbidden: Option<u32>, count: usize) -> usize
    ensures value { result ≡ showable forbidden count }
    ensures some { result ≤ count }
{
    match forbidden {
        Some(step) if (step as usize) < count => step as usize,
        _ => count,
    }
}

/// Whether a window begins after the last event that can be shown. `count` is how many can be shown.
pub fn is_behind(window: Option<Window>, count: usize) -> bool
    ensures { result ≡ is_behind window count }
{
    match window {
        Some(window) => count < window.from(),
        None => false,
    }
}

/// The events that are shown: those after the first `before`, up to number `last`.
#[derive(Clone, Copy, Debug)]
pub struct Span {
    /// The number of events before them.
    pub before: usize,
    /// The number of the last event that is shown.
    pub last: usize,
}

impl Span {
    /// Returns the events of a window, or without one the last [`MOST_SHOWN`], out of `count` that
    /// can be shown. If the window begins after these, none is shown.
    pub fn of(window: Option<Window>, count: usize) -> Span
        ensures last { result.last ≡ shown_last window count }
        ensures before { result.before ≡ not_shown window result.last }
        ensures order { (result.before ≤ result.last) × (result.last ≤ count) }
    {
        match window {
            None => Span {
                before: count.saturating_sub(MOST_SHOWN),
                last: count,
            },
            Some(window) => {
                let last = window.to().min(count);
                Span {
                    before: window.from().saturating_sub(1).min(last),
                    last,
                }
            }
        }
    }
}
