//! A history's page.

ghost use Rattle.std.specs.Prelude.{◌≡◌, ◌≤◌, ◌<◌, ◌^◌, IfOk, OnOk, IsErrOf, length, string_bytes};
ghost use Rattle.monk_object.specs.Names.{most};
ghost use Rattle.monk_page.specs.{Html.IsArticle, Html.IsArticleOf, Html.history_end, Html.page_of, Page.told_json};

use crate::in_json::JsonText;
use crate::page_data::write_page;
use crate::shell::{article_around, page_with};
use crate::template::ends::HISTORY;
use crate::told_history::ToldHistory;
use monk_audit::{AuditFault, audit};
use monk_draw::{Span, Window, draw, history_scene, showable};
use monk_history::{Event, Header};
use monk_tell::{JudgedHistory, forbidden_step, tell_judged};
use std::alloc::{AllocError, Global};

/// Returns a history with its answer as one article of a page.
fn article_told(alloc: Global, told: ToldHistory, beside: &str) -> Result<String, AllocError>
    ensures { IfOk result (λ text. IsArticleOf (told_json told.entry) beside.now (string_bytes text)) }
{
    let mut out = JsonText::new(alloc);
    write_page(&mut out, told)?;
    let data = out.text()?;
    let shown = &told.events[told.span.before..told.span.last];
    let scene = history_scene(
        alloc,
        told.header.seats(),
        told.steps,
        told.span.before,
        shown,
    )?;
    let picture = draw(alloc, told.header, &scene, told.telling.verdict.caption())?;
    article_around(alloc, picture.as_str(), data.as_str(), beside)
}

/// Returns a history as one article of a page: a picture, and the data of each shown step, for the
/// page's script. [`page_of`] makes the page. The data are unbroken
/// ([`data_are_unbroken`](crate::laws::data_are_unbroken)).
///
/// `window` says which events are shown, as for [`draw`]. `beside` is JSON from the history's program that
/// [`check_told`](crate::check_told) has let through, or `null`. It is put in unchanged.
///
/// # Errors
///
/// [`AuditFault::Object`] exactly if the size is above the object's greatest.
/// [`AuditFault::Memory`] if a request for memory was refused.
///
/// # Cost
///
/// An audit of the events under each of the ten kinds. One replay for their own kind, and for each
/// other kind that forbids an event a replay of those before it. Memory for the text: some 1 kB for
/// each event that is shown, and more for the data while they are written.
pub fn article(
    alloc: Global,
    header: &Header,
    events: &[Event],
    window: Option<Window>,
    beside: &str,
) -> Result<String, AuditFault>
    requires { length events.now ≤ 2 ^ 25 }
    ensures article { IfOk result (λ text. IsArticle header.now events.now window beside.now (string_bytes text)) }
    ensures fits { OnOk result (header.now.size ≤ most header.now.object) }
    ensures object { IsErrOf result AuditFault.Object → most header.now.object < header.now.size }
    ensures too_big { most header.now.object < header.now.size → IsErrOf result AuditFault.Object }
{
    let verdict = audit(alloc, header, events)?;
    let span = Span::of(window, showable(forbidden_step(verdict), events.len()));
    let history = JudgedHistory {
        header,
        events,
        verdict,
    };
    let (telling, steps) = tell_judged(alloc, history, span.before, span.last)?;
    let told = ToldHistory {
        header,
        events,
        telling: &telling,
        span,
        steps: &steps,
    };
    Ok(article_told(alloc, told, beside)?)
}

/// Returns the page of these histories, as one HTML text. `articles` are what [`article`] returns, in order.
///
/// # Errors
///
/// `AllocError` if a request for memory was refused.
///
/// # Cost
///
/// Memory for the page.
#[tactic(auto, unfolding(crate::specs::Html::history_end))]
pub fn page_of(alloc: Global, articles: &str) -> Result<String, AllocError>
    ensures { IfOk result (λ page. string_bytes page ≡ page_of articles.now history_end) }
{
    page_with(alloc, articles, HISTORY)
}
