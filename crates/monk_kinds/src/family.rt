//! The families of kinds. A bound on a family says which operations a kind has.

ghost use Rattle.std.specs.Prelude.{◌≡◌, ◌≢◌};

use crate::kind::Kind;

/// A kind with condition variables: every kind but the automatic ones.
pub trait Conditional: Kind {
    ghost use Rattle.monk_kinds.specs.declared.mode.Mode.TheVariants.{Automatic as AutomaticMode};

    ghost not_automatic: { Self.MODE ≢ AutomaticMode };
}

/// A kind whose signaller stays inside the monitor, so that it has a signaller queue.
pub trait Explicit: Conditional {
    ghost use Rattle.monk_kinds.specs.declared.mode.Mode.TheVariants.{ImmediateReturn as ReturnMode};

    ghost not_immediate: { Self.MODE ≢ ReturnMode };
}

/// A kind whose signaller waits for the task that it signalled.
pub trait Blocking: Explicit {
    ghost use Rattle.monk_kinds.specs.declared.mode.Mode.TheVariants.{Blocking as BlockingMode};

    ghost mode: { Self.MODE ≡ BlockingMode };
}

/// A kind whose signaller goes on before the task that it signalled.
pub trait NonBlocking: Explicit {
    ghost use Rattle.monk_kinds.specs.declared.mode.Mode.TheVariants.{NonBlocking as NonBlockingMode};

    ghost mode: { Self.MODE ≡ NonBlockingMode };
}

/// A kind whose signaller has the same priority as the task that it signalled.
pub trait QuasiBlocking: Explicit {
    ghost use Rattle.monk_kinds.specs.declared.mode.Mode.TheVariants.{QuasiBlocking as QuasiBlockingMode};

    ghost mode: { Self.MODE ≡ QuasiBlockingMode };
}

/// A kind whose signaller leaves the monitor by its signal.
pub trait ImmediateReturn: Conditional {
    ghost use Rattle.monk_kinds.specs.declared.mode.Mode.TheVariants.{ImmediateReturn as ReturnMode};

    ghost mode: { Self.MODE ≡ ReturnMode };
}

/// A kind without conditions and signals, whose tasks wait until a predicate holds.
pub trait Automatic: Kind {
    ghost use Rattle.monk_kinds.specs.declared.mode.Mode.TheVariants.{Automatic as AutomaticMode};

    ghost mode: { Self.MODE ≡ AutomaticMode };
}
