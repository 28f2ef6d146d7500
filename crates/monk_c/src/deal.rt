//! A new hall whose seats are not yet given to handles.
ghost use Rattle.std.specs.Prelude.{◌≡◌, ◌≤◌, ◌+◌, length, All, IfSome, IfOk, IfErr, MatchOption};
ghost use Rattle.std.specs.Arc.{arc_value};
ghost use Rattle.monk_hall.specs.Rule.{setting_of};
ghost use Rattle.monk_c.specs.Dealing.{ArePasses, IsMadeOf, IsMakeRefusal, first_bits, fresh_view};

use crate::numbers::Numbers;
use crate::refusal::Refusal;
use crate::room::Room;
use crate::seat::{Seat, Shared};
use crate::token::SeatToken;
use monk_floor::MakeFault;
use monk_hall::{Hall, Pass};
use monk_history::Header;
use monk_kinds::Kind;
use monk_object::{Flags, ObjectName};
use std::alloc::Global;
use std::marker::Model;
use std::sync::Arc;

/// A new hall and the passes of its first seats, with as many shares of the hall. Contracts see
/// it as the hall and how many passes are left.
#[derive(Drop)]
pub struct Deal<K: Kind> {
    first: Shared<K>,
    rooms: Vec<Shared<K>>,
    passes: Vec<Pass<K, Flags>>,
}

impl<K: Kind> Model for Deal<K> {
    ghost use Rattle.std.specs.Prelude.{◌≡◌, length, All};
    ghost use Rattle.std.specs.Arc.{arc_value};
    ghost use Rattle.monk_c.specs.Dealing.{ArePasses, DealView};

    ghost Value = { DealView };

    ghost view = { λ d. record { room = arc_value d.first; left = length d.passes.items } };

    ghost invariant = { λ d. (length d.rooms.items ≡ length d.passes.items)
        × All (λ r. arc_value r ≡ arc_value d.first) d.rooms.items
        × ArePasses (arc_value d.first) d.passes.items };
}

/// Returns the hall with its header. A hall's numbers always have one.
fn headed<K: Kind>(hall: Hall<K, Flags>, numbers: Numbers) -> Option<Room<K>>
    requires setting { hall.setting ≡ setting_of (first_bits numbers.flags) numbers.seats numbers.conds numbers.budget }
    requires few { numbers.flags ≤ 32 }
    ensures { IfSome result (λ r. r ≡ record { house = hall; flags = numbers.flags }) }
{
    let Numbers {
        seats,
        conds,
        flags,
        budget: _,
    } = numbers;
    let header = Header::new(K::NAME, seats, conds, ObjectName::Flags, flags.max(1))?;
    Some(Room {
        hall,
        header: header.upgraded(),
        flags,
    })
}

/// Makes a hall and its passes.
fn open<K: Kind>(alloc: Global, numbers: Numbers) -> Result<(Room<K>, Vec<Pass<K, Flags>>), Refusal>
    ensures made { IfOk result (λ r. IsMadeOf numbers r.0) }
    ensures count { IfOk result (λ r. length r.1.items ≡ numbers.seats) }
    ensures passes { IfOk result (λ r. ArePasses r.0 r.1.items) }
    ensures refused { IfErr result (λ f. IsMakeRefusal numbers f) }
{
    let Numbers {
        seats,
        conds,
        flags,
        budget,
    } = numbers;
    let Ok(object) = Flags::make(flags.max(1)) else {
        return Err(Refusal::Range);
    };
    match Hall::make(alloc, object, seats, conds, budget) {
        Ok((hall, passes)) => {
            let Some(room) = headed(hall, numbers) else {
                return Err(Refusal::Memory);
            };
            Ok((room, passes))
        }
        Err(MakeFault::Memory) => Err(Refusal::Memory),
        Err(_) => Err(Refusal::Range),
    }
}

/// Shares the hall among its seats: once, and then `count` times.
fn shared<K: Kind>(
    alloc: Global,
    room: Room<K>,
    count: usize,
) -> Option<(Shared<K>, Vec<Shared<K>>)>
    ensures { IfSome result (λ r. (arc_value r.0 ≡ room) × (length r.1.items ≡ count)
        × All (λ s. arc_value s ≡ room) r.1.items) }
{
    let first = Arc::new(alloc, room).ok()?;
    let mut rooms = Vec::new(alloc);
    while rooms.len() < count {
        rooms.push(Arc::try_clone(&first).ok()?).ok()?;
    }
    Some((first, rooms))
}

impl<K: Kind> Deal<K> {
    /// Makes a hall.
    pub fn open(alloc: Global, numbers: Numbers) -> Result<Deal<K>, Refusal>
        ensures made { IfOk result (λ d. IsMadeOf numbers d.room × (d.left ≡ numbers.seats)) }
        ensures refused { IfErr result (λ f. IsMakeRefusal numbers f) }
    {
        let (room, passes) = open::<K>(alloc, numbers)?;
        let Some((first, rooms)) = shared(alloc, room, passes.len()) else {
            return Err(Refusal::Memory);
        };
        Ok(Deal {
            first,
            rooms,
            passes,
        })
    }

    /// Returns the seat of the last pass that is left.
    pub fn deal(&mut self) -> Option<Seat<K>>
        ensures room { self.new.room ≡ self.old.room }
        ensures seat { MatchOption result (self.old.left ≡ 0) (λ s. (self.old.left ≡ self.new.left + 1)
            × (s ≡ fresh_view self.new.room self.new.left)) }
    {
        let pass = self.passes.pop()?;
        match self.rooms.pop() {
            Some(room) => Some(Seat::new(room, SeatToken::Outside(pass))),
            // There is a room for each pass.
            None => unreachable!(),
        }
    }
}
