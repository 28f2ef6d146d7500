//! The guarded objects.
ghost use Rattle.std.specs.Prelude.{◌<◌};

use monk_object::{Book, Buffer, Guarded, ObjectFault, ObjectName, Op, Shop};
use std::alloc::Global;

/// The three objects of the surface, and flags, which came later.
pub fn object_number(object: ObjectName) -> u8 {
    match object {
        ObjectName::Buffer => 1,
        ObjectName::Book => 2,
        ObjectName::Shop => 3,
        ObjectName::Flags => 4,
    }
}

pub fn operation(code: u8, arg: u32) -> Op {
    Op { code, arg }
}

pub fn parts_of_operation(op: Op) -> (u8, u32) {
    let Op { code, arg } = op;
    (code, arg)
}

pub fn buffer(alloc: Global, size: u8) -> Result<Buffer, ObjectFault> {
    Buffer::make(alloc, size)
}

pub fn book(size: u8) -> Result<Book, ObjectFault> {
    Book::make(size)
}

pub fn shop(size: u8) -> Result<Shop, ObjectFault> {
    Shop::make(size)
}

pub fn act<T: Guarded>(object: &mut T, op: Op) -> u64
    requires { op.code < T.CODES }
{
    object.act(op)
}

pub fn holds<T: Guarded>(object: &T, pred: u8) -> bool
    requires { pred < T.PREDICATES }
{
    object.holds(pred)
}

/// Returns how many operations and how many predicates it has.
pub fn counts<T: Guarded>() -> [u8; 2] {
    [T::CODES, T::PREDICATES]
}

pub fn three_types() {
    is_guarded::<Buffer>();
    is_guarded::<Book>();
    is_guarded::<Shop>();
}

pub fn is_guarded<T: Guarded>() {
    may_be_sent::<T>();
}

/// What every guarded object is.
pub fn may_be_sent<T: Send + Drop>() {}
