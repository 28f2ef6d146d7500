//! Floors, worlds and halls are made for each number of seats, with small and large budgets.
use monk_floor::Floor;
use monk_hall::Hall;
use monk_history::MOST_SEATS;
use monk_kinds::Pb;
use monk_object::Shop;
use monk_world::World;
use std::test::Fail;

static BUDGETS: [u32; 5] = [2, 3, 1000, 1001, 4000];

/// Whether each is made, and has what was asked for.
fn are_made(rt: &HostRuntime, seats: u8, budget: u32) -> Result<bool, Fail> {
    let alloc = rt.alloc();
    let conds = seats % 9;
    let floor = Floor::<Pb, Shop>::make(alloc, Shop::make(1)?, seats, conds, budget)?;
    let is_floor = seats > 0 && floor.left(seats - 1) == budget;
    let world = World::<Pb, Shop>::make(alloc, Shop::make(1)?, seats, conds, budget)?;
    let is_world = world.seats() == seats && world.history().is_empty();
    let (_, passes) = Hall::<Pb, Shop>::make(alloc, Shop::make(1)?, seats, conds, budget)?;
    let is_hall = passes.len() == usize::from(seats);
    let has_budget = passes.iter().all(|pass| pass.left() == budget);
    Ok(is_floor && is_world && is_hall && has_budget)
}

#[test]
fn each_number_of_seats_is_made(rt: HostRuntime) -> Result<(), Fail> {
    for seats in 1..=MOST_SEATS {
        for budget in BUDGETS.iter() {
            assert!(rt; are_made(&rt, seats, *budget)?);
        }
    }
    Ok(())
}
