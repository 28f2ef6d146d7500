ghost use Rattle.std.specs.Prelude.{◌≡◌, ◌≤◌, ◌^◌, length, map};
ghost use Rattle.monk_object.specs.Names.{most};
ghost use Rattle.monk_tell.specs.{Steps.step_of, Steps.steps_between, Told.account, Told.telling_of};

use monk_draw::Span;
use monk_history::{Event, Header};
use monk_tell::{Step, Telling};

/// A history, and what a page says about it.
#[derive(Clone, Copy)]
pub(crate) struct ToldHistory<'a> {
    pub(crate) header: &'a Header,
    pub(crate) events: &'a [Event],
    /// What the page says about all events.
    pub(crate) telling: &'a Telling,
    /// Which events are shown.
    pub(crate) span: Span,
    /// Their steps.
    pub(crate) steps: &'a [Step],
    ghost few: { length events.now ≤ 2 ^ 25 },
    ghost fits: { header.now.size ≤ most header.now.object },
    ghost order: { span.before ≤ span.last },
    ghost last: { span.last ≤ length events.now },
    ghost told: { telling_of telling.now ≡ account header.now events.now },
    ghost shown: { map step_of steps.now ≡ steps_between header.now events.now span.before span.last },
}
