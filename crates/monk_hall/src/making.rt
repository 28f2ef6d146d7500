//! How a hall is made: the table, and a pass for each seat.
ghost use Rattle.std.specs.Prelude.{◌≡◌, ◌<◌, Some, None, [], ◌∷◌, IfOk, IfErr, replicate};
ghost use Rattle.monk_floor.specs.Making.{make_refusal, IsRefused};
ghost use Rattle.monk_hall.specs.{Layout.floor_of, Layout.word_count, Rule.setting_of, Tells.IsSized, Tokens.tokens};
ghost use Rattle.monk_hall.specs.Records.{the, opening_record, first_view};

use crate::boxed_floor::BoxedFloor;
use crate::hall::Hall;
use crate::pace::Pace;
use crate::pass::Pass;
use crate::rule::TableSeat;
use crate::seat_numbers::SeatNumbers;
use crate::setup::Setup;
use crate::steps::{First, Words};
use monk_floor::{Floor, MakeFault};
use monk_kinds::Kind;
use monk_object::Guarded;
use std::alloc::{AllocError, Global};
use std::marker::PhantomData;
use std::snapshot::Snapshot;

impl<K: Kind, T: Guarded> Hall<K, T> {
    /// Makes a hall over an object, and a pass for each of its seats, in order. It has 1 to 32 seats, at most 8
    /// condition variables, and 2 to 2^20 events for each seat.
    ///
    /// Returns the first fault that applies, lack of memory last, and then drops the object. Takes memory for
    /// `seats * budget` events, all queues, the table and the passes at once. No call of the hall or of its tokens
    /// takes any.
    pub fn make(
        alloc: Global,
        object: T,
        seats: u8,
        conds: u8,
        budget: u32,
    ) -> Result<(Hall<K, T>, Vec<Pass<K, T>>), MakeFault>
        ensures made { IfOk result
            (λ r. (make_refusal seats conds budget ≡ None)
            × (r.0.setting ≡ setting_of (T.state object) seats conds budget)
            × (r.1.items ≡ tokens r.0.id (first_view r.0.setting))) }
        ensures refused { IfErr result (λ e. IsRefused seats conds budget e) }
    {
        let opening = Snapshot::of(&object);
        let floor = Floor::make(alloc, object, seats, conds, budget)?;
        let setup = Setup {
            opening,
            seats,
            conds,
            budget,
        };
        Ok(open(alloc, floor, setup)?)
    }
}

/// Makes a hall with this floor at home.
fn open<K: Kind, T: Guarded>(
    alloc: Global,
    floor: Floor<K, T>,
    setup: Setup<T>,
) -> Result<(Hall<K, T>, Vec<Pass<K, T>>), AllocError>
    requires made { make_refusal setup.seats setup.conds setup.budget ≡ None }
    requires floor { floor ≡ floor_of
        (setting_of (T.state setup.opening.value) setup.seats setup.conds setup.budget) [] }
    ensures { IfOk result
        (λ r. (r.0.setting ≡ setting_of (T.state setup.opening.value) setup.seats setup.conds setup.budget)
        × (r.1.items ≡ tokens r.0.id (first_view r.0.setting))) }
{
    let seats = setup.seats;
    let budget = setup.budget;
    let mut slots = Vec::new(alloc);
    slots.push(Some(BoxedFloor::make(alloc, floor)?))?;
    let words = zeros(alloc, 2 * seats as usize + 1)?;
    let (table, first) = Words::new(alloc, &words, slots, &setup)?;
    let passes = deal(alloc, &table, first, seats, budget)?;
    Ok((
        Hall {
            words: table,
            seats,
            pace: Pace::new(),
        },
        passes,
    ))
}

/// Returns `count` words that are 0.
fn zeros(alloc: Global, count: usize) -> Result<Vec<u64>, AllocError>
    ensures { IfOk result (λ v. v.items ≡ replicate count 0) }
{
    Ok(vec![in alloc; 0; count]?)
}

/// Gives each seat its record, out of the view that has them all.
fn deal<K: Kind, T: Guarded>(
    alloc: Global,
    words: &Words<K, T>,
    mut first: First<K, T>,
    seats: u8,
    budget: u32,
) -> Result<Vec<Pass<K, T>>, AllocError>
    requires table { (first.seat.table_id ≡ words.now.table.shared.table_id) × IsSized
        words.now.table.shared.table_id words.now.table.shared.key.seats }
    requires numbers { (seats ≡ words.now.table.shared.key.seats) × (budget ≡ words.now.table.shared.key.budget) }
    requires view { first.seat.me ≡ (
      first_view
          (setting_of (T.state words.now.table.shared.key.opening.value) seats words.now.table.shared.key.conds budget),
      [],
    ) }
    ensures { IfOk result
        (λ v. v.items ≡ tokens words.now.table.shared.table_id
        (first_view (setting_of (T.state words.now.table.shared.key.opening.value) seats
        words.now.table.shared.key.conds budget))) }
{
    let mut passes = Vec::new(alloc);
    let mut dealt = 0;
    while dealt < seats {
        let seat = words.deal(&mut first);
        passes.push(fresh_pass(seat, dealt, budget))?;
        dealt += 1;
    }
    Ok(passes)
}

/// Makes the pass of a seat that has its record, before any step.
fn fresh_pass<K: Kind, T: Guarded>(seat: TableSeat<K, T>, number: u8, budget: u32) -> Pass<K, T>
    requires table { seat.table_id.words ≡ word_count (the seat.me.0).setting.seats }
    requires fresh { seat.me ≡ (opening_record (the seat.me.0).setting number ∷ [], []) }
    requires numbers { (number < (the seat.me.0).setting.seats) × (budget ≡ (the seat.me.0).setting.budget) }
    ensures { result ≡ record { hall = seat.table_id; me = opening_record (the seat.me.0).setting number } }
{
    let numbers = SeatNumbers {
        seat: number,
        calls: 0,
        budget,
        gap_byte: 0,
        gap_pair: 0,
    };
    Pass {
        badge: seat.into_badge(),
        of: PhantomData,
        numbers,
        left: budget,
        gap: 0,
    }
}
