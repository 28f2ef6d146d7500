use super::marks::{from_here, up_to_here};
use monk_object::{Book, Buffer, Flags, Guarded, ObjectFault, ObjectName, Op, Shop};
use std::test::Fail;

/// What is done with an object, or asked of it.
#[derive(Clone, Copy)]
enum Step {
    /// An operation, by its code and its argument, and its reply.
    Act(u8, u32, u64),
    /// Which predicates hold, with one entry for each.
    Holds(&'static [bool]),
    /// Which predicates hold, as the bits of a number.
    Bits(u32),
}

/// Whether these predicates hold, and no other.
fn holds_are<T: Guarded>(object: &T, holds: &[bool]) -> bool {
    for pred in 0..T::PREDICATES {
        if holds.get(usize::from(pred)) != Some(&object.holds(pred)) {
            return false;
        }
    }
    holds.len() == usize::from(T::PREDICATES)
}

/// Which predicates hold, as the bits of a number.
fn bits_of<T: Guarded>(object: &T) -> u32 {
    let mut bits = 0u32;
    for pred in 0..T::PREDICATES {
        if object.holds(pred) {
            bits |= 1u32 << (pred & 31);
        }
    }
    bits
}

/// Whether the act has its reply, or the predicates hold as the step says.
fn is_so<T: Guarded>(object: &mut T, step: Step) -> bool {
    match step {
        Step::Act(code, arg, reply) => code < T::CODES && object.act(Op { code, arg }) == reply,
        Step::Holds(holds) => holds_are(object, holds),
        Step::Bits(bits) => bits_of(object) == bits,
    }
}

/// Whether this is so for each of the steps, and they take no memory.
fn are_so<T: Guarded>(rt: &HostRuntime, object: &mut T, steps: &[Step]) -> Result<bool, Fail> {
    from_here(rt)?;
    for step in steps {
        if !is_so(object, *step) {
            return Ok(false);
        }
    }
    up_to_here(rt)?;
    Ok(true)
}

static BUFFER_OF_TWO: [Step; 9] = [
    Step::Holds(&[true, false]),
    Step::Act(Buffer::PUT, 0, 1),
    Step::Act(Buffer::PUT, u32::MAX, 1),
    Step::Holds(&[false, true]),
    Step::Act(Buffer::PUT, 1, 0),
    Step::Act(Buffer::TAKE, 0, 1),
    Step::Act(Buffer::TAKE, 0, 4_294_967_296),
    Step::Act(Buffer::TAKE, 0, 0),
    Step::Holds(&[true, false]),
];

#[test]
fn buffer_of_two(rt: HostRuntime) -> Result<(), Fail> {
    let mut buffer = Buffer::make(rt.alloc(), 2)?;
    assert!(rt; are_so(&rt, &mut buffer, &BUFFER_OF_TWO)?);
    Ok(())
}

static BOOK_OF_TWO: [Step; 12] = [
    Step::Holds(&[true, true]),
    Step::Act(Book::START_READ, 0, 1),
    Step::Act(Book::START_READ, 0, 1),
    Step::Act(Book::START_READ, 0, 0),
    Step::Act(Book::START_WRITE, 0, 0),
    Step::Act(Book::END_READ, 0, 1),
    Step::Act(Book::END_READ, 0, 1),
    Step::Act(Book::START_WRITE, 0, 1),
    Step::Act(Book::START_READ, 0, 0),
    Step::Holds(&[false, false]),
    Step::Act(Book::END_WRITE, 0, 1),
    Step::Act(Book::END_WRITE, 0, 0),
];

static SHOP_OF_ONE: [Step; 13] = [
    Step::Holds(&[true, false, false]),
    Step::Act(Shop::SIT, 0, 1),
    Step::Act(Shop::SIT, 0, 0),
    Step::Holds(&[false, true, false]),
    Step::Act(Shop::CALL, 0, 1),
    Step::Act(Shop::SIT, 0, 1),
    Step::Act(Shop::CALL, 0, 0),
    Step::Act(Shop::DEPART, 0, 0),
    Step::Act(Shop::FINISH, 0, 1),
    Step::Holds(&[false, false, true]),
    Step::Act(Shop::FINISH, 0, 0),
    Step::Act(Shop::DEPART, 0, 1),
    Step::Act(Shop::CALL, 0, 1),
];

static FLAGS_OF_THREE: [Step; 9] = [
    Step::Bits(0),
    Step::Act(Flags::SET, 5, 1),
    Step::Act(Flags::SET, 8, 0),
    Step::Bits(5),
    Step::Act(Flags::SET, 7, 1),
    Step::Act(Flags::SET, u32::MAX, 0),
    Step::Bits(7),
    Step::Act(Flags::SET, 2, 1),
    Step::Bits(2),
];

static ONE_FLAG: [Step; 3] = [
    Step::Act(Flags::SET, 1, 1),
    Step::Act(Flags::SET, 2, 0),
    Step::Bits(1),
];

/// The greatest number of flags, with the greatest bits.
static ALL_FLAGS: [Step; 4] = [
    Step::Act(Flags::SET, 1 << 31, 1),
    Step::Bits(1 << 31),
    Step::Act(Flags::SET, u32::MAX, 1),
    Step::Bits(u32::MAX),
];

#[test]
fn book_shop_and_flags(rt: HostRuntime) -> Result<(), Fail> {
    assert!(rt; are_so(&rt, &mut Book::make(2)?, &BOOK_OF_TWO)?);
    assert!(rt; are_so(&rt, &mut Shop::make(1)?, &SHOP_OF_ONE)?);
    assert!(rt; are_so(&rt, &mut Flags::make(3)?, &FLAGS_OF_THREE)?);
    assert!(rt; are_so(&rt, &mut Flags::make(1)?, &ONE_FLAG)?);
    assert!(rt; are_so(&rt, &mut Flags::make(32)?, &ALL_FLAGS)?);
    Ok(())
}

/// The number of the fault, or 0 if there is none.
fn number_of<T>(made: &Result<T, ObjectFault>) -> u8 {
    match made {
        Ok(_) => 0,
        Err(fault) => fault.number(),
    }
}

/// Sizes of buffers and shops, and the number of the fault: 1 and the greatest are taken, 0 and one above are not.
static LARGE: [(u8, u8); 4] = [(0, 1), (1, 0), (64, 0), (65, 1)];

/// The same for books and flags.
static SMALL: [(u8, u8); 4] = [(0, 1), (1, 0), (32, 0), (33, 1)];

#[test]
fn limits_of_sizes(rt: HostRuntime) {
    for (size, fault) in LARGE.iter() {
        let buffer = number_of(&Buffer::make(rt.alloc(), *size));
        assert!(rt; buffer == *fault && number_of(&Shop::make(*size)) == *fault);
    }
    for (size, fault) in SMALL.iter() {
        let book = number_of(&Book::make(*size));
        assert!(rt; book == *fault && number_of(&Flags::make(*size)) == *fault);
    }
    assert!(rt; ObjectFault::Memory.number() == 2);
}

/// Each object, its name, and its greatest size.
static NAMES: [(ObjectName, &[u8], u8); 4] = [
    (ObjectName::Buffer, b"buffer", 64),
    (ObjectName::Book, b"book", 32),
    (ObjectName::Shop, b"shop", 64),
    (ObjectName::Flags, b"flags", 32),
];

#[test]
fn names_and_greatest_sizes(rt: HostRuntime) {
    for (name, text, greatest) in NAMES.iter() {
        let is_named = name.text() == *text && name.as_str().as_bytes() == *text;
        let is_known = ObjectName::of_text(text) == Some(*name);
        assert!(rt; is_named && is_known && name.greatest_size() == *greatest);
    }
    let others = [ObjectName::of_text(b"Book"), ObjectName::of_text(b"")];
    assert!(rt; ObjectName::ALL.len() == NAMES.len() && others == [None, None]);
}
