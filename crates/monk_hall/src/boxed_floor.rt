ghost use Rattle.std.specs.Prelude.{◌≡◌, IfOk};

use crate::steps::alone::Alone;
use monk_floor::Floor;
use monk_kinds::Kind;
use monk_object::Guarded;
use std::alloc::{AllocError, Global};
use std::marker::Model;
use std::ops::{Deref, DerefMut};

/// The floor in memory of its own: only a pointer moves between its slot and a seat's hands. Contracts see the floor.
#[derive(Drop)]
pub struct BoxedFloor<K: Kind, T: Guarded> {
    floor: Box<Floor<K, T>>,
}

impl<K: Kind, T: Guarded> Model for BoxedFloor<K, T> {
    ghost use Rattle.monk_floor.specs.View.{FloorView};

    ghost Value = { FloorView };

    ghost view = { λ b. b.floor.value };
}

impl<K: Kind, T: Guarded> BoxedFloor<K, T> {
    /// Takes memory, and moves the floor into it.
    pub(crate) fn make(alloc: Global, floor: Floor<K, T>) -> Result<BoxedFloor<K, T>, AllocError>
        ensures { IfOk result (λ b. b ≡ floor) }
    {
        Ok(BoxedFloor {
            floor: Box::new(alloc, floor)?,
        })
    }

    /// Returns the floor alone, when its hall ends: only a look that found nobody else lets it out of its box.
    pub(crate) fn into_inner<S>(self, alone: Alone<S>) -> Floor<K, T>
        ensures { result ≡ self }
    {
        alone.spend();
        Box::into_inner(self.floor)
    }
}

impl<K: Kind, T: Guarded> Deref for BoxedFloor<K, T> {
    type Target = Floor<K, T>;

    ghost deref_gives = { λ b f. f ≡ b };

    fn deref(&self) -> &Floor<K, T> {
        self.floor.as_ref()
    }
}

impl<K: Kind, T: Guarded> DerefMut for BoxedFloor<K, T> {
    ghost use Rattle.std.specs.Borrow.{Lends, sem};
    ghost use Rattle.monk_floor.specs.contracts.floor.Floor.{the_row as floor_row};
    ghost use Rattle.monk_hall.specs.contracts.boxed_floor.BoxedFloor.{the_row};

    ghost deref_mut_gives = { λ b f. f ≡ b };

    fn deref_mut(&mut self) -> &mut Floor<K, T>
        ensures* writes_back { sem 𝓛 (Lends (the_row K.row T.row K.Kind T.Guarded)
            (floor_row K.row T.row K.Kind T.Guarded)
            self.entry result (λ f. f)) }
        ensures shows { result.now ≡ self.old }
    {
        self.floor.as_mut()
    }
}
