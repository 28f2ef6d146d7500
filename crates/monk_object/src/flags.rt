ghost use Rattle.std.specs.Prelude.{◌≡◌, ◌≤◌, ◌<◌, OnOk, OnErr, IfOk, IfErr, IsErrOf, ◌⊎◌};
ghost use Rattle.monk_object.specs.Names.{opening_named, most};
ghost use Rattle.monk_object.specs.declared.name.ObjectName.TheVariants.{Flags as FlagsName};

use crate::fault::ObjectFault;
use crate::guarded::Guarded;
use crate::listed::Listed;
use crate::name::ObjectName;
use crate::op::Op;
use std::marker::Model;

/// Flags that the active seat sets, all at once. A program shows by them what holds for data that it keeps to
/// itself. Predicate `p` is that bit `p` is set. Contracts see them as the number of flags and the bits.
#[derive(Drop)]
pub struct Flags {
    size: u8,
    bits: u32,
}

impl Model for Flags {
    ghost use Rattle.std.specs.Prelude.{ℕ, List, ◌∷◌, [], ◌≤◌};

    ghost Value = { List ℕ };

    ghost view = { λ f. f.size ∷ f.bits ∷ [] };

    ghost invariant = { λ f. f.size ≤ 32 };
}

impl Flags {
    /// The operation that sets the bits to the argument. It is done, with reply 1, if there is a flag for each bit.
    pub const SET: u8 = 0;

    /// Makes `size` flags, none of them set.
    ///
    /// Error `Size` if `size` is 0 or above `ObjectName::Flags.greatest_size()`; no other.
    pub fn make(size: u8) -> Result<Self, ObjectFault>
        ensures made { IfOk result (λ b. b ≡ opening_named FlagsName size) }
        ensures within { OnOk result ((1 ≤ size) × (size ≤ most FlagsName)) }
        ensures refused { (size < 1) ⊎ (most FlagsName < size) → IsErrOf result ObjectFault.Size }
        ensures fault { OnErr result ((size < 1) ⊎ (most FlagsName < size)) }
        ensures number { IfErr result (λ e. e ≡ ObjectFault.Size) }
    {
        if size == 0 || size > ObjectName::Flags.greatest_size() {
            return Err(ObjectFault::Size);
        }
        Ok(Flags { size, bits: 0 })
    }
}

impl Guarded for Flags {
    ghost use Rattle.std.proofs.Common.{arith, refl};
    ghost use Rattle.monk_object.specs.Refused.{refused as refused_by};
    ghost use Rattle.monk_object.specs.Flags.{flags_meaning};

    const CODES: u8 = 1;

    const PREDICATES: u8 = 32;

    ghost CODES = { flags_meaning.codes };

    ghost PREDICATES = { flags_meaning.predicates };

    ghost meaning = { flags_meaning };

    ghost state = { λ s. s };

    ghost greatest_reply = { 1 };

    ghost codes = { refl };

    ghost predicates = { refl };

    ghost few = { Prim.omega arith };

    fn act(&mut self, op: Op) -> u64 {
        match op.code {
            Self::SET if u64::from(op.arg) >> self.size == 0 => self.bits = op.arg,
            _ => return 0,
        }
        1
    }

    fn holds(&self, pred: u8) -> bool {
        (self.bits >> pred) & 1 == 1
    }

    ghost refused = { refused_by FlagsName };
}

impl Listed for Flags {
    fn number(&self, index: usize) -> Option<u64> {
        match index {
            0 => Some(u64::from(self.size)),
            1 => Some(u64::from(self.bits)),
            _ => None,
        }
    }
}
