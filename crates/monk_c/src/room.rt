//! A hall with the numbers that it was made with.
ghost use Rattle.std.specs.Prelude.{◌≡◌, List, IsTrue};
ghost use Rattle.monk_object.specs.declared.name.ObjectName.TheVariants as object;
ghost use Rattle.monk_object.specs.Names.{opening_named};
ghost use Rattle.monk_history.specs.{Text.is_writable, declared.event.Event.Event};
ghost use Rattle.monk_c.specs.Headings.{flags_made, heading_for};

use monk_hall::Hall;
use monk_history::Header;
use monk_kinds::Kind;
use monk_object::Flags;
use std::marker::Model;

/// A hall, the header of its history, and how many flags the program has. Contracts see it as the hall and the number
/// of flags.
#[derive(Drop)]
pub struct Room<K: Kind> {
    pub hall: Hall<K, Flags>,
    pub header: Header,
    pub flags: u8,
}

impl<K: Kind> Model for Room<K> {
    ghost use Rattle.monk_c.specs.Headings.{IsRoom};
    ghost use Rattle.monk_c.specs.Stands.{RoomView};

    ghost Value = { RoomView };

    ghost view = { λ r. record { house = r.hall; flags = r.flags } };

    ghost invariant = { λ r. IsRoom K.NAME (record { house = r.hall; flags = r.flags }) r.header };
}

impl<K: Kind> Room<K> {
    /// Returns how many conditions it has.
    pub fn conds(&self) -> u8
        ensures { result ≡ self.now.house.setting.conds }
    {
        self.header.conds()
    }

    /// Returns the header of its history, in a version that has every event. The hall has its numbers, and no flag
    /// was set at first.
    pub fn header(&self) -> Header
        ensures header { result ≡ heading_for K.NAME self.now }
        ensures writable { (events : List Event) → IsTrue (is_writable result events) }
        ensures opening { self.now.house.setting.opening ≡ opening_named object.Flags (flags_made self.now.flags) }
    {
        self.header
    }
}
