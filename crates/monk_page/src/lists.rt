//! Lists of numbers and of seats.

ghost use Rattle.monk_tell.specs.Told.{condition_lists};
ghost use Rattle.monk_page.specs.{Json.list_json, Json.numbers_json, Step.wait_json};

use crate::in_json::{InJson, JsonText};
use monk_tell::{Conditions, SeatList, Waits};
use std::alloc::AllocError;

impl InJson for SeatList {
    ghost json = { λ s. numbers_json s.0.items };

    fn write(&self, out: &mut JsonText) -> Result<(), AllocError> {
        self.0.write(out)
    }
}

impl InJson for Conditions {
    ghost json = { λ c. list_json numbers_json (condition_lists c) };

    #[tactic(auto, using(crate::proofs::PageLaws::conditions_told))]
    fn write(&self, out: &mut JsonText) -> Result<(), AllocError> {
        self.0.write(out)
    }
}

impl InJson for Waits {
    ghost json = { λ w. list_json wait_json w.0.items };

    fn write(&self, out: &mut JsonText) -> Result<(), AllocError> {
        self.0.write(out)
    }
}

/// A seat, and the predicate until which it waits.
impl InJson for (u8, u8) {
    ghost json = { wait_json };

    fn write(&self, out: &mut JsonText) -> Result<(), AllocError> {
        out.writer.begin_array()?;
        self.0.write(out)?;
        self.1.write(out)?;
        out.writer.end_array()
    }
}
