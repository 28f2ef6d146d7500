//! The kinds whose signaller has the same priority as the task that it signalled.

use crate::family::{Conditional, Explicit, QuasiBlocking};
use crate::kind::Kind;
use crate::mode::Mode;
use crate::name::KindName;

/// Priority quasi-blocking: waiter and signaller tie, both above entry.
#[derive(Clone, Copy, Debug)]
pub struct Pqb;

impl Kind for Pqb {
    const ENTRY: u8 = 1;

    const WAITER: u8 = 2;

    const SIGNALLER: u8 = 2;

    const MODE: Mode = Mode::QuasiBlocking;

    const NAME: KindName = KindName::Pqb;

    ghost use Rattle.std.proofs.Common.{arith, refl};
    ghost use Rattle.monk_kinds.specs.declared.mode.Mode.TheVariants.{QuasiBlocking};
    ghost use Rattle.monk_kinds.specs.declared.name.KindName.TheVariants.{Pqb as Name};

    ghost ENTRY = { 1 };

    ghost WAITER = { 2 };

    ghost SIGNALLER = { 2 };

    ghost MODE = { QuasiBlocking };

    ghost NAME = { Name };

    ghost rules = { record { entry = 1; waiter = 2; signaller = 2; mode = QuasiBlocking } };

    ghost are_rules = { refl };

    ghost is_kind = { record {
      entry_waiter = Prim.omega arith;
      entry_signaller = Prim.omega arith;
      fits_mode = refl;
    } };

    ghost are_named = { refl };
}

impl Conditional for Pqb {
    ghost not_automatic = { λ h. Prim.cc };
}

impl Explicit for Pqb {
    ghost not_immediate = { λ h. Prim.cc };
}

impl QuasiBlocking for Pqb {
    ghost use Rattle.std.proofs.Common.{refl};

    ghost mode = { refl };
}

/// Non-priority quasi-blocking: all three queues tie, so any of their fronts may be admitted.
#[derive(Clone, Copy, Debug)]
pub struct Npqb;

impl Kind for Npqb {
    const ENTRY: u8 = 1;

    const WAITER: u8 = 1;

    const SIGNALLER: u8 = 1;

    const MODE: Mode = Mode::QuasiBlocking;

    const NAME: KindName = KindName::Npqb;

    ghost use Rattle.std.proofs.Common.{arith, refl};
    ghost use Rattle.monk_kinds.specs.declared.mode.Mode.TheVariants.{QuasiBlocking};
    ghost use Rattle.monk_kinds.specs.declared.name.KindName.TheVariants.{Npqb as Name};

    ghost ENTRY = { 1 };

    ghost WAITER = { 1 };

    ghost SIGNALLER = { 1 };

    ghost MODE = { QuasiBlocking };

    ghost NAME = { Name };

    ghost rules = { record { entry = 1; waiter = 1; signaller = 1; mode = QuasiBlocking } };

    ghost are_rules = { refl };

    ghost is_kind = { record {
      entry_waiter = Prim.omega arith;
      entry_signaller = Prim.omega arith;
      fits_mode = refl;
    } };

    ghost are_named = { refl };
}

impl Conditional for Npqb {
    ghost not_automatic = { λ h. Prim.cc };
}

impl Explicit for Npqb {
    ghost not_immediate = { λ h. Prim.cc };
}

impl QuasiBlocking for Npqb {
    ghost use Rattle.std.proofs.Common.{refl};

    ghost mode = { refl };
}
