//! What a seat that is inside sees.
ghost use Rattle.std.specs.Prelude.{IfOk, IfErr};
ghost use Rattle.monk_c.specs.{Looking.IsCount, Texts.HasTextAt, Texts.IsTextRefusal};

use crate::modes::has_conditions;
use crate::refusal::Refusal;
use crate::seat::Seat;
use crate::token::SeatToken;
use monk_history::{Device, write};
use monk_kinds::{Kind, rules_of};
use std::alloc::Global;

impl<K: Kind> Seat<K> {
    /// Returns how many wait on a condition, or a number below 0 that says why that isn't known.
    pub fn waiting(&self, cond: u8) -> i64
        ensures { IsCount K.rules.mode self.now cond result }
    {
        if !has_conditions(rules_of::<K>().mode) {
            return i64::from(Refusal::NotOfKind.number());
        }
        if cond >= self.room().conds() {
            return i64::from(Refusal::Range.number());
        }
        match self.token() {
            SeatToken::Inside(active) => i64::from(active.waiting(cond)),
            _ => i64::from(Refusal::NotNow.number()),
        }
    }

    /// Returns the text of the history up to now.
    pub fn text(&self, alloc: Global) -> Result<Vec<u8>, Refusal>
        ensures text { IfOk result (λ v. HasTextAt K.NAME self.now.room self.now.at v.items) }
        ensures refused { IfErr result (λ f. IsTextRefusal self.now.at f) }
    {
        let SeatToken::Inside(active) = self.token() else {
            return Err(Refusal::NotNow);
        };
        // (its floor has the hall's numbers)
        let _ = active.left();
        let header = self.header();
        let mut page = Device::new(Vec::new(alloc));
        match write(&header, active.history(), &mut page) {
            Ok(()) => Ok(page.into_inner()),
            Err(_) => Err(Refusal::Memory),
        }
    }
}
