//! The forms in which a picture is written.

ghost use Rattle.std.specs.Prelude.{◌<◌, ◌≤◌, ◌^◌, IsErrOf, length};
ghost use Rattle.monk_object.specs.Names.{most};

use crate::scene::Scene;
use crate::svg::draw;
use crate::text::draw_text;
use crate::text_form::TextForm;
use crate::window::Window;
use monk_audit::{AuditFault, Verdict};
use monk_history::{Event, Header};
use std::alloc::{AllocError, Global};

/// The form in which a picture is written.
#[derive(Clone, Copy, Debug)]
pub enum Picture<'a> {
    /// As an SVG text, by [`draw`].
    Svg,
    /// As lines of text, by [`draw_text`].
    Text(TextForm<'a>),
}

impl Picture<'_> {
    /// Returns the picture of a scene. If the last event is forbidden, `reason` says why; it may hold no markup.
    ///
    /// # Errors
    ///
    /// `AllocError` if a request for memory was refused.
    ///
    /// # Cost
    ///
    /// Time for each event and seat that is shown, and memory for the picture.
    pub fn of_scene(
        self,
        alloc: Global,
        header: &Header,
        scene: &Scene,
        reason: &str,
    ) -> Result<String, AllocError> {
        match self {
            Picture::Svg => draw(alloc, header, scene, reason),
            Picture::Text(form) => draw_text(alloc, header, scene, reason, form),
        }
    }

    /// Returns the picture of a history with that verdict: of the scene that [`Scene::of_history`] returns.
    ///
    /// # Errors
    ///
    /// As [`Scene::of_history`].
    ///
    /// # Cost
    ///
    /// The cost of [`Scene::of_history`] and of [`Picture::of_scene`].
    pub fn of_history(
        self,
        alloc: Global,
        header: &Header,
        events: &[Event],
        window: Option<Window>,
        verdict: Verdict,
    ) -> Result<String, AuditFault>
        requires { length events.now ≤ 2 ^ 25 }
        ensures { IsErrOf result AuditFault.Object → most header.now.object < header.now.size }
    {
        let scene = Scene::of_history(alloc, header, events, window, verdict)?;
        Ok(self.of_scene(alloc, header, &scene, verdict.caption())?)
    }
}
