ghost use Rattle.std.specs.Prelude.{◌≡◌, ◌≤◌, false, IfOk, IsErrOf};
ghost use Rattle.monk_history.specs.Text.Device.{has_failed};
ghost use Rattle.monk_commands.specs.{Streams.IsPassingOn, declared.fault.StreamFault.TheVariants.Memory};

use crate::auditing::audit_stream;
use crate::completing::complete_stream;
use crate::fault::StreamFault;
use crate::fit_form::FitForm;
use crate::playing::play_stream;
use crate::question::Question;
use crate::show::Show;
use crate::text_task::TextTask;
use crate::tracing::trace_stream;
use crate::upgrading::upgrade_stream;
use monk_draw::{Picture, TextForm, Window};
use monk_history::Device;
use monk_kinds::KindName;
use std::alloc::Global;
use std::io::{Read, Write};

/// A command that reads an input, and what it makes of it.
///
/// If the input isn't such a text, the line `unreadable LINE NUMBER WORD` is written with status 2. If the size is
/// above the object's greatest, `object` is written with status 2. docs/TEXT.md and docs/LOGS.md describe the texts.
#[derive(Clone, Copy)]
pub enum Task<'a> {
    /// The verdict on a history, by [`audit_stream`].
    Audit,
    /// The history that a play leads to, by [`play_stream`].
    Play,
    /// The same history in a version that has every event, by [`upgrade_stream`].
    Upgrade,
    /// How a history or a log is judged.
    ///
    /// For a log, whose first word is `log`, one line is written after `NAME: `, or one line of JSON. It says whether
    /// the log fits, how its program ends, and what else is counted and found ([`judge_log`](monk_judge::judge_log)).
    /// Of another text the line of JSON says with status 2 that it is no log. The status is 1 if the log
    /// misfits, misses a signal, or ends busy and its program didn't end by itself; else 0. A log with
    /// another kind than NPNB, or with meanings but without acts, is refused by a line with status 2.
    ///
    /// For a history ten lines are written, in the order of [`KindName::ALL`]: `KIND legal N` or `KIND forbidden STEP
    /// REASON WORD`. With a kind only its line is written, after `NAME: `; so is each line if the text is one of
    /// several. The status is 0 if a line says `legal`, else 1.
    ///
    /// A log takes one pass over its text, four over its lines, and one over the last visit of each thread that
    /// waits at its end. It takes 24 bytes of memory a line and the text, or 32 bytes a line, whichever is more. A
    /// history takes a pass over the text, and one over the events for each kind.
    Fit(FitForm, Question<'a>),
    /// Each command of a play with its answer, by [`trace_stream`].
    Trace,
    /// How a history or a log is judged, and why.
    ///
    /// For a history the line of an audit is written, with its status, under the kind if one is named. Then come
    /// lines on how things are at the end, or before the forbidden event. Last come that event, the object's own
    /// reply or what might have been chosen, and a sentence that says why.
    ///
    /// For a log the line of `Fit` is written, with its status. Then come the lines to look at, each with a sentence
    /// and, if the recorder wrote that down, with its place in the source. Last comes where each seat is, and since
    /// which line.
    ///
    /// A history takes two passes over the events. A log takes twice what `Fit` does, and memory for a run.
    Explain(Question<'a>),
    /// The picture of a history or of a log, with the events that are asked for.
    ///
    /// For a log the run that `Complete` writes is shown, with a column for each line up to the one that misfits.
    /// That line is framed, with the word for what is wrong and its number in the file. The status is 1 if the log
    /// misfits, else 0.
    ///
    /// For a history the events up to the first forbidden one or up to the end are shown; without a window, the last
    /// 200. The status is that of an audit. If the window begins after the last event that can be shown, the line
    /// `window LAST` is written with status 2. LAST is the number of that event, or 0 if there is none.
    ///
    /// It takes two passes over the events, and memory for the text, for the events and for what is written.
    Draw(Option<Window>),
    /// The same picture as lines of text, by [`monk_draw::draw_text`].
    DrawText(Option<Window>, TextForm<'a>),
    /// The page of a history or of a log: that picture, and each step that is shown. It costs what
    /// [`monk_page::article`] does.
    Page(Option<Window>),
    /// A legal history of a monitor of the kind that tells a log, by [`complete_stream`]. With no kind, a run of a
    /// mutex with condition variables that tells it, with status 0.
    ///
    /// A run begins with the line `run NPNB SEATS CONDS OBJECT SIZE`, and has a line for each step. A step is a line
    /// of the log, with ` wakes SEAT` after a signal that woke a thread. Or it is `out SEAT` if the thread's time ran
    /// out, or `wake SEAT` if it woke though nobody sent a signal. No run that tells the log has fewer such wakes. If
    /// no run tells it, `misfit at LINE: WORD` is written with status 1: the first line of the file with which none
    /// does.
    Complete(Option<KindName>),
}

impl Task<'_> {
    /// Reads all input and runs the stream that the variant names. Returns the exit status, 0 to 2.
    ///
    /// # Errors
    ///
    /// The errors of [`audit_stream`]. A trace may have written lines by then.
    ///
    /// # Cost
    ///
    /// The cost of the stream.
    pub fn stream<R: Read, W: Write>(
        self,
        alloc: Global,
        reader: &mut Device<R>,
        writer: &mut Device<W>,
    ) -> Result<u8, StreamFault>
        requires reader_works { has_failed reader.old ≡ false }
        requires writer_works { has_failed writer.old ≡ false }
        ensures statuses { IfOk result (λ status. status ≤ 2) }
        ensures outcome { IsPassingOn R.remaining reader.old reader.new writer.new result }
        // All but a trace write nothing if a request for memory is refused.
        ensures whole { (self.entry ≡ Task.Trace → ⊥) → IsErrOf result Memory → writer.new ≡ writer.old }
    {
        match self {
            Task::Audit => audit_stream(alloc, reader, writer),
            Task::Play => play_stream(alloc, reader, writer),
            Task::Upgrade => upgrade_stream(alloc, reader, writer),
            Task::Fit(form, question) => {
                TextTask::Fit(form, question).stream(alloc, reader, writer)
            }
            Task::Trace => trace_stream(alloc, reader, writer),
            Task::Explain(question) => TextTask::Explain(question).stream(alloc, reader, writer),
            Task::Draw(window) => {
                let show = Show::Picture(Picture::Svg);
                TextTask::Show(show, window).stream(alloc, reader, writer)
            }
            Task::DrawText(window, form) => {
                let show = Show::Picture(Picture::Text(form));
                TextTask::Show(show, window).stream(alloc, reader, writer)
            }
            Task::Page(window) => {
                TextTask::Show(Show::Page, window).stream(alloc, reader, writer)
            }
            Task::Complete(Some(kind)) => complete_stream(alloc, kind, reader, writer),
            Task::Complete(None) => TextTask::CompleteRun.stream(alloc, reader, writer),
        }
    }
}
