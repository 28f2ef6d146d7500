//! The kinds without signals, whose tasks wait until a predicate holds.

use crate::family::Automatic;
use crate::kind::Kind;
use crate::mode::Mode;
use crate::name::KindName;

/// Priority implicit (automatic) signal: entry below waiter. A task whose predicate holds is admitted before any
/// caller from outside.
#[derive(Clone, Copy, Debug)]
pub struct Pis;

impl Kind for Pis {
    const ENTRY: u8 = 1;

    const WAITER: u8 = 2;

    const SIGNALLER: u8 = 1;

    const MODE: Mode = Mode::Automatic;

    const NAME: KindName = KindName::Pis;

    ghost use Rattle.std.proofs.Common.{arith, refl};
    ghost use Rattle.monk_kinds.specs.declared.mode.Mode.TheVariants.{Automatic};
    ghost use Rattle.monk_kinds.specs.declared.name.KindName.TheVariants.{Pis as Name};

    ghost ENTRY = { 1 };

    ghost WAITER = { 2 };

    ghost SIGNALLER = { 1 };

    ghost MODE = { Automatic };

    ghost NAME = { Name };

    ghost rules = { record { entry = 1; waiter = 2; signaller = 1; mode = Automatic } };

    ghost are_rules = { refl };

    ghost is_kind = { record {
      entry_waiter = Prim.omega arith;
      entry_signaller = Prim.omega arith;
      fits_mode = refl;
    } };

    ghost are_named = { refl };
}

impl Automatic for Pis {
    ghost use Rattle.std.proofs.Common.{refl};

    ghost mode = { refl };
}

/// Non-priority implicit (automatic) signal: entry and waiter tie.
#[derive(Clone, Copy, Debug)]
pub struct Npis;

impl Kind for Npis {
    const ENTRY: u8 = 1;

    const WAITER: u8 = 1;

    const SIGNALLER: u8 = 1;

    const MODE: Mode = Mode::Automatic;

    const NAME: KindName = KindName::Npis;

    ghost use Rattle.std.proofs.Common.{arith, refl};
    ghost use Rattle.monk_kinds.specs.declared.mode.Mode.TheVariants.{Automatic};
    ghost use Rattle.monk_kinds.specs.declared.name.KindName.TheVariants.{Npis as Name};

    ghost ENTRY = { 1 };

    ghost WAITER = { 1 };

    ghost SIGNALLER = { 1 };

    ghost MODE = { Automatic };

    ghost NAME = { Name };

    ghost rules = { record { entry = 1; waiter = 1; signaller = 1; mode = Automatic } };

    ghost are_rules = { refl };

    ghost is_kind = { record {
      entry_waiter = Prim.omega arith;
      entry_signaller = Prim.omega arith;
      fits_mode = refl;
    } };

    ghost are_named = { refl };
}

impl Automatic for Npis {
    ghost use Rattle.std.proofs.Common.{refl};

    ghost mode = { refl };
}
