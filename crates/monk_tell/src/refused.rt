//! The acts that the object refused, by their steps.

ghost use Rattle.std.specs.Prelude.{◌≡◌, ◌+◌, ◌-◌, ◌<◌, ◌≤◌, ◌++◌, [], ◌∷◌, ℕ, List, ◌^◌, IfOk, OnOk};
ghost use Rattle.monk_history.specs.Meaning.Acts.{refused_steps};
ghost use Rattle.monk_tell.specs.Told.{refused_of, told_steps};

use crate::lists::NumberList;
use monk_history::Event;
use std::alloc::{AllocError, Global};
use std::fmt;

/// The greatest number of steps that are listed.
const MOST_TOLD: usize = 10;

/// The steps of the acts that the object refused: the first of them, at most ten, and how many more there are.
#[derive(Debug, Drop)]
pub struct Refused {
    /// The steps, counted from 1, in rising order.
    pub first: NumberList,
    /// How many more there are.
    pub more: usize,
}

impl Refused {
    /// Adds a step.
    #[tactic(auto, using(crate::proofs::RefusedLaws::told_within, crate::proofs::RefusedLaws::told_past))]
    fn note(&mut self, step: u64) -> Result<(), AllocError>
        requires { self.old.more < 2 ^ 64 - 1 }
        ensures noted { OnOk result ((steps : List ℕ) → refused_of self.old ≡ told_steps steps
            → refused_of self.new ≡ told_steps (steps ++ step ∷ [])) }
        ensures few { self.new.more ≤ self.old.more + 1 }
    {
        if self.first.0.len() < MOST_TOLD {
            self.first.0.push(step)?;
        } else {
            self.more += 1;
        }
        Ok(())
    }
}

/// Returns the acts that the object refused.
pub(crate) fn refused_acts(alloc: Global, events: &[Event]) -> Result<Refused, AllocError>
    ensures { IfOk result (λ r. refused_of r ≡ told_steps (refused_steps events.now)) }
{
    let mut refused = Refused {
        first: NumberList(Vec::new(alloc)),
        more: 0,
    };
    for (index, event) in events.iter().enumerate() {
        if event.is_refused() {
            refused.note(index as u64 + 1)?;
        }
    }
    Ok(refused)
}

/// Prints a line if there is such an act: `refused: 3 11`.
impl fmt::Display for Refused {
    fn fmt<W: fmt::Write>(&self, f: &mut fmt::Formatter<W>) -> fmt::Result {
        if self.first.0.is_empty() {
            return Ok(());
        }
        write!(f, "refused:{}", self.first)?;
        match self.more {
            0 => write!(f, "\n"),
            more => write!(f, " and {more} more\n"),
        }
    }
}
