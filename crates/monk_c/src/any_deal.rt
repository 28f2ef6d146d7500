//! A new hall of any kind.
ghost use Rattle.std.specs.Prelude.{◌≡◌, ◌+◌, IfOk, IfErr, MatchOption};
ghost use Rattle.monk_c.specs.{Deals.deal_in, Deals.kind_dealt, Making.fresh_seat};
ghost use Rattle.monk_c.specs.Dealing.{IsMadeOf, IsMakeRefusal};

use crate::any_seat::AnySeat;
use crate::deal::Deal;
use crate::numbers::Numbers;
use crate::refusal::Refusal;
use monk_kinds::{KindName, Npb, Npir, Npis, Npnb, Npqb, Pb, Pir, Pis, Pnb, Pqb};
use std::alloc::Global;

/// A new hall of a kind, whose seats are not yet given to handles.
#[derive(Drop)]
pub enum AnyDeal {
    Pb(Deal<Pb>),
    Npb(Deal<Npb>),
    Pnb(Deal<Pnb>),
    Npnb(Deal<Npnb>),
    Pqb(Deal<Pqb>),
    Npqb(Deal<Npqb>),
    Pir(Deal<Pir>),
    Npir(Deal<Npir>),
    Pis(Deal<Pis>),
    Npis(Deal<Npis>),
}

impl AnyDeal {
    /// Makes a hall of that kind.
    pub fn open(alloc: Global, kind: KindName, numbers: Numbers) -> Result<AnyDeal, Refusal>
        ensures made { IfOk result (λ d. (kind_dealt d ≡ kind) × IsMadeOf numbers (deal_in d).room
            × ((deal_in d).left ≡ numbers.seats)) }
        ensures refused { IfErr result (λ f. IsMakeRefusal numbers f) }
    {
        match kind {
            KindName::Pb => Ok(AnyDeal::Pb(Deal::open(alloc, numbers)?)),
            KindName::Npb => Ok(AnyDeal::Npb(Deal::open(alloc, numbers)?)),
            KindName::Pnb => Ok(AnyDeal::Pnb(Deal::open(alloc, numbers)?)),
            KindName::Npnb => Ok(AnyDeal::Npnb(Deal::open(alloc, numbers)?)),
            KindName::Pqb => Ok(AnyDeal::Pqb(Deal::open(alloc, numbers)?)),
            KindName::Npqb => Ok(AnyDeal::Npqb(Deal::open(alloc, numbers)?)),
            KindName::Pir => Ok(AnyDeal::Pir(Deal::open(alloc, numbers)?)),
            KindName::Npir => Ok(AnyDeal::Npir(Deal::open(alloc, numbers)?)),
            KindName::Pis => Ok(AnyDeal::Pis(Deal::open(alloc, numbers)?)),
            KindName::Npis => Ok(AnyDeal::Npis(Deal::open(alloc, numbers)?)),
        }
    }

    /// Returns the seat of the last pass that is left.
    pub fn deal(&mut self) -> Option<AnySeat>
        ensures kind { kind_dealt self.new ≡ kind_dealt self.old }
        ensures room { (deal_in self.new).room ≡ (deal_in self.old).room }
        ensures seat { MatchOption result ((deal_in self.old).left ≡ 0)
            (λ s. ((deal_in self.old).left ≡ (deal_in self.new).left + 1)
            × (s ≡ fresh_seat (kind_dealt self.new) (deal_in self.new).room (deal_in self.new).left)) }
    {
        match self {
            AnyDeal::Pb(deal) => Some(AnySeat::Pb(deal.deal()?)),
            AnyDeal::Npb(deal) => Some(AnySeat::Npb(deal.deal()?)),
            AnyDeal::Pnb(deal) => Some(AnySeat::Pnb(deal.deal()?)),
            AnyDeal::Npnb(deal) => Some(AnySeat::Npnb(deal.deal()?)),
            AnyDeal::Pqb(deal) => Some(AnySeat::Pqb(deal.deal()?)),
            AnyDeal::Npqb(deal) => Some(AnySeat::Npqb(deal.deal()?)),
            AnyDeal::Pir(deal) => Some(AnySeat::Pir(deal.deal()?)),
            AnyDeal::Npir(deal) => Some(AnySeat::Npir(deal.deal()?)),
            AnyDeal::Pis(deal) => Some(AnySeat::Pis(deal.deal()?)),
            AnyDeal::Npis(deal) => Some(AnySeat::Npis(deal.deal()?)),
        }
    }
}
