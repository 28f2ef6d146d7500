//! What is wrong with an event.

ghost use Rattle.monk_tell.specs.Told.{blame_of};
ghost use Rattle.monk_page.specs.Blame.{blame_json, why_json};

use crate::in_json::{InJson, JsonText, member};
use monk_tell::{ForbiddenEvent, Why};
use std::alloc::AllocError;

impl InJson for ForbiddenEvent {
    ghost json = { λ b. blame_json (blame_of b) };

    #[tactic(auto, using(crate::proofs::PageLaws::option_told))]
    fn write(&self, out: &mut JsonText) -> Result<(), AllocError> {
        out.writer.begin_object()?;
        member(out, "choice", &self.choice)?;
        member(out, "event", &self.event)?;
        member(out, "reply", &self.reply)?;
        member(out, "step", &u64::from(self.step))?;
        member(out, "why", &self.why)?;
        out.writer.end_object()
    }
}

impl InJson for Why {
    ghost json = { why_json };

    fn write(&self, out: &mut JsonText) -> Result<(), AllocError> {
        let said = format!(in out.alloc; "{self}")?;
        out.writer.string(said.as_str())
    }
}
