//! The objects that a play may name, as they are at its start.

ghost use Rattle.std.specs.Prelude.{◌≡◌, ◌≤◌, IfOk};
ghost use Rattle.monk_object.specs.Names.{most, opening_named};
ghost use Rattle.monk_object.specs.declared.name.ObjectName.TheVariants as object;

use monk_object::{Book, Buffer, Flags, ObjectFault, Shop};
use std::alloc::{AllocError, Global};

/// Makes a buffer with no items.
pub(crate) fn buffer(alloc: Global, size: u8) -> Result<Buffer, AllocError>
    requires some { 1 ≤ size }
    requires few { size ≤ most object.Buffer }
    ensures made { IfOk result (λ b. b ≡ opening_named object.Buffer size) }
{
    match Buffer::make(alloc, size) {
        Ok(buffer) => Ok(buffer),
        Err(ObjectFault::Memory) => Err(AllocError),
        // The size is in range.
        Err(_) => unreachable!(),
    }
}

/// Makes a book that nobody reads or writes.
pub(crate) fn book(size: u8) -> Book
    requires some { 1 ≤ size }
    requires few { size ≤ most object.Book }
    ensures { result ≡ opening_named object.Book size }
{
    match Book::make(size) {
        Ok(book) => book,
        // The size is in range.
        Err(_) => unreachable!(),
    }
}

/// Makes a shop with nobody in it.
pub(crate) fn shop(size: u8) -> Shop
    requires some { 1 ≤ size }
    requires few { size ≤ most object.Shop }
    ensures { result ≡ opening_named object.Shop size }
{
    match Shop::make(size) {
        Ok(shop) => shop,
        // The size is in range.
        Err(_) => unreachable!(),
    }
}

/// Makes flags, none of them set.
pub(crate) fn flags(size: u8) -> Flags
    requires some { 1 ≤ size }
    requires few { size ≤ most object.Flags }
    ensures { result ≡ opening_named object.Flags size }
{
    match Flags::make(size) {
        Ok(flags) => flags,
        // The size is in range.
        Err(_) => unreachable!(),
    }
}
