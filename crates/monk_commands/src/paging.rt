//! The stream of a page of several histories: it takes their texts, and writes one page.

ghost use Rattle.std.specs.Prelude.{◌≡◌, ◌≤◌, false, length, IfOk, string_bytes};
ghost use Rattle.std.specs.Io.KnownBytes.{Appends};
ghost use Rattle.monk_history.specs.Text.Device.{inner_of, has_failed};
ghost use Rattle.monk_commands.specs.{Paged.IsPageOfAll, Paged.IsPart, Streams.IsPut};

use crate::answer::{LineAnswer, put};
use crate::fault::StreamFault;
use crate::fitting::named;
use crate::show::HistoryForm;
use crate::showing::shown_in_form;
use monk_draw::Window;
use monk_history::Device;
use monk_page::page_of;
use std::alloc::{AllocError, Global};
use std::io::Write;

/// One history of a page.
#[derive(Clone, Copy)]
pub struct Paged<'a> {
    /// The name that is written if it is refused.
    pub name: &'a str,
    /// Its text.
    pub text: &'a [u8],
    /// What its program says about it, which [`monk_page::check_told`] has let through; `null` if it says nothing.
    pub beside: &'a str,
}

/// Returns the answer to the text of a history: its part of the page, or why it has none.
fn text_answer(
    alloc: Global,
    history: Paged<'_>,
    window: Option<Window>,
) -> Result<LineAnswer, AllocError>
    ensures { IfOk result (λ a. a.status ≤ 1 → IsPart window history.entry (string_bytes a.text)) }
{
    shown_in_form(
        alloc,
        HistoryForm::Article(history.beside),
        window,
        history.text,
    )
}

/// Returns the page of the histories, or the answer to the first that has no part in it.
fn page_answer(
    alloc: Global,
    histories: &[Paged<'_>],
    window: Option<Window>,
) -> Result<LineAnswer, AllocError>
    ensures { IfOk result
        (λ a. a.status ≤ 1 → IsPageOfAll window histories.now (length histories.now) (string_bytes a.text)) }
{
    let mut articles = String::new(alloc);
    let mut status = 0;
    for history in histories {
        let answer = text_answer(alloc, *history, window)?;
        if answer.status > 1 {
            return named(alloc, history.name, answer);
        }
        articles.push_str(answer.text.as_str())?;
        status = answer.status.max(status);
    }
    let text = page_of(alloc, articles.as_str())?;
    Ok(LineAnswer { status, text })
}

/// Writes one page of several histories, in their order, each with what its program says about it. For each the
/// events of the window are shown, as [`Task::Page`](crate::Task::Page) shows them.
///
/// The status is 0 if all are legal, and 1 if one has an event that its kind forbids. If
/// [`Task::Page`](crate::Task::Page) would show nothing for one of them, its name and that answer are written in
/// place of the page, with status 2.
///
/// # Errors
///
/// [`StreamFault::File`] if the writer failed. [`StreamFault::Memory`] if a request for memory was refused.
///
/// # Cost
///
/// The cost of [`monk_page::article`] for each history, and memory for the page twice.
pub fn pages_stream<W: Write>(
    alloc: Global,
    histories: &[Paged<'_>],
    window: Option<Window>,
    writer: &mut Device<W>,
) -> Result<u8, StreamFault>
    requires { has_failed writer.old ≡ false }
    // With status 0 or 1 a page of these histories was written.
    ensures page { IfOk result (λ status. status ≤ 1 → IsPut
        (λ s text. IsPageOfAll window histories.now (length histories.now) text) status
        (Appends (W.contents (inner_of writer.old)) (W.contents (inner_of writer.new)))) }
    ensures statuses { IfOk result (λ status. status ≤ 2) }
{
    put(&page_answer(alloc, histories, window)?, writer)
}
