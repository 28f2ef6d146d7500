//! The tasks whose answer is one text, which is written when it is whole.

ghost use Rattle.std.specs.Prelude.{◌≡◌, ◌≤◌, false, IfOk};
ghost use Rattle.monk_history.specs.Text.Device.{has_failed};
ghost use Rattle.monk_commands.specs.Streams.{IsStreamOutcome};

use crate::answer::{LineAnswer, put};
use crate::explaining::{explain_history, explain_log};
use crate::fault::StreamFault;
use crate::fit_form::FitForm;
use crate::fitting::{fit_log, fit_other};
use crate::input::read_all;
use crate::logs::answering::is_log;
use crate::logs::completing::run_answer;
use crate::logs::drawing::show_log;
use crate::question::Question;
use crate::show::Show;
use crate::showing::show_history;
use monk_draw::Window;
use monk_history::Device;
use std::alloc::{AllocError, Global};
use std::io::{Read, Write};

/// A task whose answer is one text.
#[derive(Clone, Copy)]
pub(crate) enum TextTask<'a> {
    Fit(FitForm, Question<'a>),
    Explain(Question<'a>),
    Show(Show<'a>, Option<Window>),
    CompleteRun,
}

impl TextTask<'_> {
    fn answer(self, alloc: Global, bytes: Vec<u8>) -> Result<LineAnswer, AllocError> {
        let is_log = is_log(&bytes);
        match self {
            TextTask::Fit(form, question) if is_log => fit_log(alloc, form, question, bytes),
            TextTask::Fit(form, question) => fit_other(alloc, form, question, &bytes),
            TextTask::Explain(question) if is_log => explain_log(alloc, question, bytes),
            TextTask::Explain(question) => explain_history(alloc, question.kind, &bytes),
            TextTask::Show(show, window) if is_log => show_log(alloc, show, window, &bytes),
            TextTask::Show(show, window) => show_history(alloc, show, window, &bytes),
            TextTask::CompleteRun => run_answer(alloc, &bytes),
        }
    }

    pub(crate) fn stream<R: Read, W: Write>(
        self,
        alloc: Global,
        reader: &mut Device<R>,
        writer: &mut Device<W>,
    ) -> Result<u8, StreamFault>
        requires reader_works { has_failed reader.old ≡ false }
        requires writer_works { has_failed writer.old ≡ false }
        ensures statuses { IfOk result (λ status. status ≤ 2) }
        ensures outcome { IsStreamOutcome R.remaining reader.old reader.new writer.old writer.new result }
    {
        let bytes = read_all(alloc, reader)?;
        put(&self.answer(alloc, bytes)?, writer)
    }
}
