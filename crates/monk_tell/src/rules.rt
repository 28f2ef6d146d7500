//! The rules of a kind, in words.

ghost use Rattle.std.specs.Prelude.{◌≡◌, Some};
ghost use Rattle.monk_tell.specs.Words.{mode_word, ranks_text};

use monk_kinds::{Mode, Rules};
use std::fmt;

/// The priorities of the entry and waiter queues, and of the signaller queue if the kind has one: `1 1 2`.
#[derive(Drop)]
pub struct Ranks(pub Rules);

impl fmt::Display for Ranks {
    ghost output = { λ r. Some (ranks_text r.0) };

    fn fmt<W: fmt::Write>(&self, f: &mut fmt::Formatter<W>) -> fmt::Result {
        let Rules {
            entry,
            waiter,
            signaller,
            mode,
        } = self.0;
        match mode {
            Mode::ImmediateReturn | Mode::Automatic => write!(f, "{entry} {waiter}"),
            _ => write!(f, "{entry} {waiter} {signaller}"),
        }
    }
}

/// Returns the word for what happens to a seat that signals: `blocking`, and so on.
pub fn mode_word(mode: Mode) -> &'static str
    ensures { result.now ≡ mode_word mode }
{
    match mode {
        Mode::Blocking => "blocking",
        Mode::NonBlocking => "non-blocking",
        Mode::QuasiBlocking => "quasi-blocking",
        Mode::ImmediateReturn => "immediate-return",
        Mode::Automatic => "automatic",
    }
}
