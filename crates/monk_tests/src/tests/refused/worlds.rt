use super::begins;
use monk_kinds::Pb;
use monk_object::Book;
use monk_world::World;
use std::test::Fail;

pub(super) fn world(rt: &HostRuntime) -> Result<bool, Fail> {
    begins(rt, "world")?;
    let world = World::<Pb, Book>::make(rt.alloc(), Book::make(4)?, 2, 3, 8)?;
    Ok(world.history().is_empty())
}
