//! The scene and the page of a run, over the object that its log names.

ghost use Rattle.std.specs.Prelude.{◌≡◌, ◌≤◌, IfOk, length, string_bytes};
ghost use Rattle.monk_object.specs.Names.{meaning_named, most, opening_named};
ghost use Rattle.monk_draw.specs.Scene.{scene_of};
ghost use Rattle.monk_judge.specs.Run.{opening, setting};
ghost use Rattle.monk_page.specs.{Log.IsLogPage, LogScene.run_scene};
ghost use Rattle.monk_commands.specs.LogDrawn.{HasRun};

use crate::objects::{book, buffer, flags, shop};
use monk_draw::{Scene, Span};
use monk_judge::Run;
use monk_logs::{LogHeader, LogLine};
use monk_object::ObjectName;
use monk_page::{ShownRun, log_page, run_scene};
use std::alloc::{AllocError, Global};

/// Returns the scene of a run by the lines that are drawn.
pub(crate) fn scene(
    alloc: Global,
    header: &LogHeader,
    run: &Run,
    lines: &[LogLine],
    span: Span,
) -> Result<Scene, AllocError>
    requires size { header.now.size ≤ most header.now.object }
    requires run { HasRun header.now run.now }
    requires order { span.before ≤ span.last }
    requires last { span.last ≤ length lines.now }
    ensures { IfOk result (λ s. scene_of s ≡ run_scene
        (setting header.now.seats header.now.conds (meaning_named header.now.object))
        (opening (opening_named header.now.object header.now.size)) run.now.steps.items lines.now
        span.before span.last) }
{
    let (size, steps) = (header.size(), &run.steps);
    match header.object() {
        ObjectName::Buffer => run_scene(alloc, header, buffer(alloc, size)?, steps, lines, span),
        ObjectName::Book => run_scene(alloc, header, book(size), steps, lines, span),
        ObjectName::Shop => run_scene(alloc, header, shop(size), steps, lines, span),
        ObjectName::Flags => run_scene(alloc, header, flags(size), steps, lines, span),
    }
}

/// Returns the page of a run by the lines that are drawn, with that picture.
pub(crate) fn page_around(
    alloc: Global,
    picture: &str,
    header: &LogHeader,
    shown: ShownRun<'_>,
) -> Result<String, AllocError>
    requires size { header.now.size ≤ most header.now.object }
    requires run { HasRun header.now shown.run.now }
    ensures { IfOk result (λ page. IsLogPage header.now (meaning_named header.now.object)
        (opening_named header.now.object header.now.size) shown.entry.run.now shown.entry.lines.now
        shown.entry.span.before shown.entry.span.last (string_bytes page)) }
{
    let size = header.size();
    match header.object() {
        ObjectName::Buffer => { log_page(alloc, picture, header, buffer(alloc, size)?, shown) }
        ObjectName::Book => log_page(alloc, picture, header, book(size), shown),
        ObjectName::Shop => log_page(alloc, picture, header, shop(size), shown),
        ObjectName::Flags => log_page(alloc, picture, header, flags(size), shown),
    }
}
