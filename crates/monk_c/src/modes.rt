//! What the kinds of a mode have.
ghost use Rattle.std.specs.Prelude.{◌≡◌};
ghost use Rattle.monk_history.specs.Meaning.Events as events;

use monk_kinds::Mode;

/// Whether they have conditions.
pub fn has_conditions(mode: Mode) -> bool
    ensures { result ≡ events.has_conditions mode }
{
    match mode {
        Mode::Blocking | Mode::NonBlocking | Mode::QuasiBlocking | Mode::ImmediateReturn => true,
        Mode::Automatic => false,
    }
}

/// Whether they have a signaller queue.
pub fn has_signaller_queue(mode: Mode) -> bool
    ensures { result ≡ events.has_signaller_queue mode }
{
    match mode {
        Mode::Blocking | Mode::NonBlocking | Mode::QuasiBlocking => true,
        Mode::ImmediateReturn | Mode::Automatic => false,
    }
}

/// Whether a signaller goes on.
pub fn is_non_blocking(mode: Mode) -> bool
    ensures { result ≡ events.is_non_blocking mode }
{
    match mode {
        Mode::NonBlocking => true,
        Mode::Blocking | Mode::QuasiBlocking | Mode::ImmediateReturn | Mode::Automatic => false,
    }
}

/// Whether a signaller leaves by its signal.
pub fn returns_at_once(mode: Mode) -> bool
    ensures { result ≡ events.returns_at_once mode }
{
    match mode {
        Mode::ImmediateReturn => true,
        Mode::Blocking | Mode::NonBlocking | Mode::QuasiBlocking | Mode::Automatic => false,
    }
}
