//! A history, and what an audit finds in it.

ghost use Rattle.std.specs.Prelude.{◌≡◌};
ghost use Rattle.monk_history.specs.Meaning.Named.{named_monitor};
ghost use Rattle.monk_audit.specs.Verdict.{verdict_of};
ghost use Rattle.monk_tell.specs.Told.{allowed_events, forbidden_step};

use monk_audit::Verdict;
use monk_history::{Event, Header};

/// A history, and what [`monk_audit::audit`] finds in it.
#[derive(Clone, Copy)]
pub struct JudgedHistory<'a> {
    /// Its header.
    pub header: &'a Header,
    /// Its events.
    pub events: &'a [Event],
    /// The verdict on them.
    pub verdict: Verdict,
    pub ghost judged: { verdict ≡ verdict_of (named_monitor header.now) events.now },
}

/// Returns the number of events before the first that is not allowed, or of all.
pub(crate) fn allowed_events(verdict: Verdict) -> usize
    ensures { result ≡ allowed_events verdict }
{
    match verdict {
        Verdict::Legal(count) => count as usize,
        Verdict::Forbidden { step, .. } => (step as usize).saturating_sub(1),
    }
}

/// Returns the step that the verdict forbids, if it forbids one.
pub fn forbidden_step(verdict: Verdict) -> Option<u32>
    ensures { result ≡ forbidden_step verdict }
{
    match verdict {
        Verdict::Legal(_) => None,
        Verdict::Forbidden { step, .. } => Some(step),
    }
}
