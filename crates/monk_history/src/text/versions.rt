//! Which events each version of a text has.

ghost use Rattle.std.specs.Prelude.{◌≡◌};
ghost use Rattle.monk_history.specs.Text.{first_version, is_writable};

use crate::event::Event;
use crate::limits::ALL_EVENTS_VERSION;
use crate::text::header::Header;

/// Returns the first version of a text that has a line for the event.
fn first_version(event: Event) -> u8
    ensures { result ≡ first_version event }
{
    match event {
        Event::Enter(..)
        | Event::Act(..)
        | Event::Leave(..)
        | Event::Wait(..)
        | Event::Signal(..)
        | Event::SignalLeave(..)
        | Event::Until(..)
        | Event::Resume(..) => 1,
        Event::SignalAll(..) | Event::SignalWait(..) => ALL_EVENTS_VERSION,
    }
}

/// Whether the header and the events have a text. They have one if the header's version is 2 or more, or if no event
/// is an [`Event::SignalAll`] or an [`Event::SignalWait`].
///
/// It looks once at each event, up to the first that has no line in the header's version. It takes no memory.
pub fn writable(header: &Header, events: &[Event]) -> bool
    ensures { result ≡ is_writable header.now events.now }
{
    let version = header.version();
    events.iter().all(|event| first_version(*event) <= version)
}
