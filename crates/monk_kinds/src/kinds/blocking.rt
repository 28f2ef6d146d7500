//! The kinds whose signaller waits for the task that it signalled.

use crate::family::{Blocking, Conditional, Explicit};
use crate::kind::Kind;
use crate::mode::Mode;
use crate::name::KindName;

/// Priority blocking: entry below signaller below waiter. The signalled task is admitted at once, and its signaller
/// before any caller from outside: Hoare's monitor of 1974.
#[derive(Clone, Copy, Debug)]
pub struct Pb;

impl Kind for Pb {
    const ENTRY: u8 = 1;

    const WAITER: u8 = 3;

    const SIGNALLER: u8 = 2;

    const MODE: Mode = Mode::Blocking;

    const NAME: KindName = KindName::Pb;

    ghost use Rattle.std.proofs.Common.{arith, refl};
    ghost use Rattle.monk_kinds.specs.declared.mode.Mode.TheVariants.{Blocking};
    ghost use Rattle.monk_kinds.specs.declared.name.KindName.TheVariants.{Pb as Name};

    ghost ENTRY = { 1 };

    ghost WAITER = { 3 };

    ghost SIGNALLER = { 2 };

    ghost MODE = { Blocking };

    ghost NAME = { Name };

    ghost rules = { record { entry = 1; waiter = 3; signaller = 2; mode = Blocking } };

    ghost are_rules = { refl };

    ghost is_kind = { record {
      entry_waiter = Prim.omega arith;
      entry_signaller = Prim.omega arith;
      fits_mode = Prim.omega arith;
    } };

    ghost are_named = { refl };
}

impl Conditional for Pb {
    ghost not_automatic = { λ h. Prim.cc };
}

impl Explicit for Pb {
    ghost not_immediate = { λ h. Prim.cc };
}

impl Blocking for Pb {
    ghost use Rattle.std.proofs.Common.{refl};

    ghost mode = { refl };
}

/// Non-priority blocking: entry and signaller tie, both below waiter. The signaller waits among the callers.
#[derive(Clone, Copy, Debug)]
pub struct Npb;

impl Kind for Npb {
    const ENTRY: u8 = 1;

    const WAITER: u8 = 2;

    const SIGNALLER: u8 = 1;

    const MODE: Mode = Mode::Blocking;

    const NAME: KindName = KindName::Npb;

    ghost use Rattle.std.proofs.Common.{arith, refl};
    ghost use Rattle.monk_kinds.specs.declared.mode.Mode.TheVariants.{Blocking};
    ghost use Rattle.monk_kinds.specs.declared.name.KindName.TheVariants.{Npb as Name};

    ghost ENTRY = { 1 };

    ghost WAITER = { 2 };

    ghost SIGNALLER = { 1 };

    ghost MODE = { Blocking };

    ghost NAME = { Name };

    ghost rules = { record { entry = 1; waiter = 2; signaller = 1; mode = Blocking } };

    ghost are_rules = { refl };

    ghost is_kind = { record {
      entry_waiter = Prim.omega arith;
      entry_signaller = Prim.omega arith;
      fits_mode = Prim.omega arith;
    } };

    ghost are_named = { refl };
}

impl Conditional for Npb {
    ghost not_automatic = { λ h. Prim.cc };
}

impl Explicit for Npb {
    ghost not_immediate = { λ h. Prim.cc };
}

impl Blocking for Npb {
    ghost use Rattle.std.proofs.Common.{refl};

    ghost mode = { refl };
}
