//! What a release chooses from, and what it may choose.

ghost use Rattle.monk_tell.specs.Told.{choice_of};
ghost use Rattle.monk_page.specs.Choice.{choice_json, front_json, next_json};

use crate::in_json::{InJson, JsonText, member};
use monk_history::{From3, Next};
use monk_tell::{Choice, queue_word};
use std::alloc::AllocError;

impl InJson for (From3, u8) {
    ghost json = { front_json };

    fn write(&self, out: &mut JsonText) -> Result<(), AllocError> {
        out.writer.begin_array()?;
        out.writer.string(queue_word(self.0))?;
        self.1.write(out)?;
        out.writer.end_array()
    }
}

impl InJson for Next {
    ghost json = { next_json };

    fn write(&self, out: &mut JsonText) -> Result<(), AllocError> {
        let said = format!(in out.alloc; "{self}")?;
        out.writer.string(said.as_str())
    }
}

impl InJson for Choice {
    ghost json = { λ c. choice_json (choice_of c) };

    fn write(&self, out: &mut JsonText) -> Result<(), AllocError> {
        out.writer.begin_object()?;
        member(out, "fronts", &self.fronts.0)?;
        member(out, "may", &self.may.0)?;
        out.writer.end_object()
    }
}
