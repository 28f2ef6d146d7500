//! How the handles get the seats of a new hall.
ghost use Rattle.std.specs.Prelude.{◌≡◌, length};
ghost use Rattle.monk_c.specs.Deals.{deal_in, kind_dealt};
ghost use Rattle.monk_c.specs.Making.{AreFresh, MadeOf, kind_of, numbers_for};

use crate::any_deal::AnyDeal;
use crate::handle::MonkSeat;
use crate::numbers::Numbers;
use crate::refusal::Refusal;
use monk_kinds::KindName;
use std::alloc::Global;

/// Gives each handle a seat.
fn seat_all(deal: AnyDeal, handles: &mut [MonkSeat])
    requires { (deal_in deal).left ≡ length handles.old }
    ensures count { length handles.new ≡ length handles.old }
    ensures each { AreFresh (kind_dealt deal) (deal_in deal).room 0 handles.old handles.new }
{
    let mut deal = deal;
    let mut at = handles.len();
    while at > 0 {
        at -= 1;
        match deal.deal() {
            Some(seat) => handles[at].put(seat),
            // The deal has a seat left for each handle that is left.
            None => unreachable!(),
        }
    }
}

/// Returns the kind that has this number in C.
fn kind_name(number: u8) -> Option<KindName>
    ensures { result ≡ kind_of number }
{
    KindName::ALL.get(usize::from(number)).copied()
}

/// Makes a hall of the kind that has this number, and gives each handle a seat.
pub fn make(
    alloc: Global,
    kind: u8,
    conds: u8,
    flags: u8,
    budget: u32,
    handles: &mut [MonkSeat],
) -> Result<(), Refusal>
    ensures { MadeOf (kind_of kind) (numbers_for conds flags budget handles.old) handles.old result handles.new }
{
    let Some(name) = kind_name(kind) else {
        return Err(Refusal::Range);
    };
    let Ok(seats) = u8::try_from(handles.len()) else {
        return Err(Refusal::Range);
    };
    let numbers = Numbers {
        seats,
        conds,
        flags,
        budget,
    };
    let deal = AnyDeal::open(alloc, name, numbers)?;
    seat_all(deal, handles);
    Ok(())
}
