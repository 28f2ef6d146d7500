//! The kinds whose signaller leaves the monitor by its signal.

use crate::family::{Conditional, ImmediateReturn};
use crate::kind::Kind;
use crate::mode::Mode;
use crate::name::KindName;

/// Priority immediate return: entry below waiter. The signaller leaves, and the signalled task is admitted before
/// any caller from outside, as in Concurrent Pascal.
#[derive(Clone, Copy, Debug)]
pub struct Pir;

impl Kind for Pir {
    const ENTRY: u8 = 1;

    const WAITER: u8 = 2;

    const SIGNALLER: u8 = 1;

    const MODE: Mode = Mode::ImmediateReturn;

    const NAME: KindName = KindName::Pir;

    ghost use Rattle.std.proofs.Common.{arith, refl};
    ghost use Rattle.monk_kinds.specs.declared.mode.Mode.TheVariants.{ImmediateReturn};
    ghost use Rattle.monk_kinds.specs.declared.name.KindName.TheVariants.{Pir as Name};

    ghost ENTRY = { 1 };

    ghost WAITER = { 2 };

    ghost SIGNALLER = { 1 };

    ghost MODE = { ImmediateReturn };

    ghost NAME = { Name };

    ghost rules = { record { entry = 1; waiter = 2; signaller = 1; mode = ImmediateReturn } };

    ghost are_rules = { refl };

    ghost is_kind = { record {
      entry_waiter = Prim.omega arith;
      entry_signaller = Prim.omega arith;
      fits_mode = refl;
    } };

    ghost are_named = { refl };
}

impl Conditional for Pir {
    ghost not_automatic = { λ h. Prim.cc };
}

impl ImmediateReturn for Pir {
    ghost use Rattle.std.proofs.Common.{refl};

    ghost mode = { refl };
}

/// Non-priority immediate return: entry and waiter tie.
#[derive(Clone, Copy, Debug)]
pub struct Npir;

impl Kind for Npir {
    const ENTRY: u8 = 1;

    const WAITER: u8 = 1;

    const SIGNALLER: u8 = 1;

    const MODE: Mode = Mode::ImmediateReturn;

    const NAME: KindName = KindName::Npir;

    ghost use Rattle.std.proofs.Common.{arith, refl};
    ghost use Rattle.monk_kinds.specs.declared.mode.Mode.TheVariants.{ImmediateReturn};
    ghost use Rattle.monk_kinds.specs.declared.name.KindName.TheVariants.{Npir as Name};

    ghost ENTRY = { 1 };

    ghost WAITER = { 1 };

    ghost SIGNALLER = { 1 };

    ghost MODE = { ImmediateReturn };

    ghost NAME = { Name };

    ghost rules = { record { entry = 1; waiter = 1; signaller = 1; mode = ImmediateReturn } };

    ghost are_rules = { refl };

    ghost is_kind = { record {
      entry_waiter = Prim.omega arith;
      entry_signaller = Prim.omega arith;
      fits_mode = refl;
    } };

    ghost are_named = { refl };
}

impl Conditional for Npir {
    ghost not_automatic = { λ h. Prim.cc };
}

impl ImmediateReturn for Npir {
    ghost use Rattle.std.proofs.Common.{refl};

    ghost mode = { refl };
}
