//! The kinds whose signaller goes on before the task that it signalled.

use crate::family::{Conditional, Explicit, NonBlocking};
use crate::kind::Kind;
use crate::mode::Mode;
use crate::name::KindName;

/// Priority non-blocking: entry below waiter below signaller. The signaller goes on, and the signalled task is
/// admitted before any caller from outside.
#[derive(Clone, Copy, Debug)]
pub struct Pnb;

impl Kind for Pnb {
    const ENTRY: u8 = 1;

    const WAITER: u8 = 2;

    const SIGNALLER: u8 = 3;

    const MODE: Mode = Mode::NonBlocking;

    const NAME: KindName = KindName::Pnb;

    ghost use Rattle.std.proofs.Common.{arith, refl};
    ghost use Rattle.monk_kinds.specs.declared.mode.Mode.TheVariants.{NonBlocking};
    ghost use Rattle.monk_kinds.specs.declared.name.KindName.TheVariants.{Pnb as Name};

    ghost ENTRY = { 1 };

    ghost WAITER = { 2 };

    ghost SIGNALLER = { 3 };

    ghost MODE = { NonBlocking };

    ghost NAME = { Name };

    ghost rules = { record { entry = 1; waiter = 2; signaller = 3; mode = NonBlocking } };

    ghost are_rules = { refl };

    ghost is_kind = { record {
      entry_waiter = Prim.omega arith;
      entry_signaller = Prim.omega arith;
      fits_mode = Prim.omega arith;
    } };

    ghost are_named = { refl };
}

impl Conditional for Pnb {
    ghost not_automatic = { λ h. Prim.cc };
}

impl Explicit for Pnb {
    ghost not_immediate = { λ h. Prim.cc };
}

impl NonBlocking for Pnb {
    ghost use Rattle.std.proofs.Common.{refl};

    ghost mode = { refl };
}

/// Non-priority non-blocking: entry and waiter tie, both below signaller. The signaller goes on, and a caller from
/// outside may come in before the signalled task, as in Mesa.
#[derive(Clone, Copy, Debug)]
pub struct Npnb;

impl Kind for Npnb {
    const ENTRY: u8 = 1;

    const WAITER: u8 = 1;

    const SIGNALLER: u8 = 2;

    const MODE: Mode = Mode::NonBlocking;

    const NAME: KindName = KindName::Npnb;

    ghost use Rattle.std.proofs.Common.{arith, refl};
    ghost use Rattle.monk_kinds.specs.declared.mode.Mode.TheVariants.{NonBlocking};
    ghost use Rattle.monk_kinds.specs.declared.name.KindName.TheVariants.{Npnb as Name};

    ghost ENTRY = { 1 };

    ghost WAITER = { 1 };

    ghost SIGNALLER = { 2 };

    ghost MODE = { NonBlocking };

    ghost NAME = { Name };

    ghost rules = { record { entry = 1; waiter = 1; signaller = 2; mode = NonBlocking } };

    ghost are_rules = { refl };

    ghost is_kind = { record {
      entry_waiter = Prim.omega arith;
      entry_signaller = Prim.omega arith;
      fits_mode = Prim.omega arith;
    } };

    ghost are_named = { refl };
}

impl Conditional for Npnb {
    ghost not_automatic = { λ h. Prim.cc };
}

impl Explicit for Npnb {
    ghost not_immediate = { λ h. Prim.cc };
}

impl NonBlocking for Npnb {
    ghost use Rattle.std.proofs.Common.{refl};

    ghost mode = { refl };
}
