use super::begins;
use monk_hall::Hall;
use monk_kinds::Pb;
use monk_object::Book;
use std::test::Fail;

pub(super) fn hall(rt: &HostRuntime) -> Result<bool, Fail> {
    begins(rt, "hall")?;
    let (hall, passes) = Hall::<Pb, Book>::make(rt.alloc(), Book::make(4)?, 2, 3, 8)?;
    let count = passes.len();
    drop(passes);
    drop(hall);
    Ok(count == 2)
}
