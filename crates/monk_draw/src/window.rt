//! Which events are asked for.

ghost use Rattle.std.specs.Prelude.{◌≡◌, None, Some, IfOk, IfErr, IfSome, IsSomeAnd, OnOk, option_map};
ghost use Rattle.monk_draw.specs.Asked.{numbers_meant, window_fault};

use crate::window_fault::WindowFault;

/// The events of a history from one number to another, counted from 1: at least one, and at most [`Window::MOST`].
#[derive(Clone, Copy, Debug)]
pub struct Window {
    from: usize,
    to: usize,
}

impl Window {
    ghost use Rattle.monk_draw.specs.declared.window.Window.{Window};

    /// The most events that can be asked for.
    pub const MOST: usize = 2000;

    /// Returns the events from one number to another.
    ///
    /// # Errors
    ///
    /// [`WindowFault::Zero`] if a number is 0, [`WindowFault::Backward`] if the first is above the
    /// last, and [`WindowFault::Wide`] if they are more than [`Window::MOST`] events.
    pub fn between(from: usize, to: usize) -> Result<Window, WindowFault>
        ensures numbers { IfOk result (λ w. (w.from ≡ from) × (w.to ≡ to)) }
        ensures only { OnOk result (window_fault from to ≡ None) }
        ensures fault { IfErr result (λ f. window_fault from to ≡ Some f) }
    {
        if from == 0 || to == 0 {
            return Err(WindowFault::Zero);
        }
        if to < from {
            return Err(WindowFault::Backward { from, to });
        }
        if Window::MOST <= to - from {
            return Err(WindowFault::Wide { from, to });
        }
        Ok(Window { from, to })
    }

    /// Returns the events that a command line asks for, or `None` if it gives no number. With
    /// `from` alone they are the first [`Window::MOST`] events from there on, with `to` alone the
    /// last [`Window::MOST`] up to there.
    ///
    /// # Errors
    ///
    /// As [`Window::between`].
    pub fn asked(from: Option<u32>, to: Option<u32>) -> Result<Option<Window>, WindowFault>
        ensures numbers { IfOk result (λ asked. option_map (λ (w : Window). (w.from, w.to)) asked
            ≡ numbers_meant from to) }
        ensures only { OnOk result (IfSome (numbers_meant from to) (λ n. window_fault n.0 n.1 ≡ None)) }
        ensures fault { IfErr result (λ f. IsSomeAnd (numbers_meant from to) (λ n. window_fault n.0 n.1 ≡ Some f)) }
    {
        match numbers_meant(from, to) {
            Some((from, to)) => Ok(Some(Window::between(from, to)?)),
            None => Ok(None),
        }
    }

    /// Returns the number of the first event, from 1.
    pub fn from(self) -> usize
        ensures { result ≡ self.from }
    {
        self.from
    }

    /// Returns the number of the last event.
    pub fn to(self) -> usize
        ensures { result ≡ self.to }
    {
        self.to
    }
}

/// Returns the numbers that are meant, if one may be left out.
fn numbers_meant(from: Option<u32>, to: Option<u32>) -> Option<(usize, usize)>
    ensures { result ≡ numbers_meant from to }
{
    match (from, to) {
        (None, None) => None,
        (None, Some(to)) => {
            let to = to as usize;
            Some((to.saturating_sub(Window::MOST) + 1, to))
        }
        (Some(from), None) => {
            let from = from as usize;
            Some((from, from + Window::MOST - 1))
        }
        (Some(from), Some(to)) => Some((from as usize, to as usize)),
    }
}
