//! What holds for every page.
//!
//! The functions do nothing: their contracts are the laws.
ghost use Rattle.std.specs.Prelude.{◌≡◌, true, ℕ, List, Option};
ghost use Rattle.monk_page.specs.{Plain.is_plain_text, Html.window_json, Log.log_json};
ghost use Rattle.monk_draw.specs.declared.window.Window.{Window};
ghost use Rattle.monk_history.specs.{Text.Heading, declared.event.Event.Event};
ghost use Rattle.monk_judge.specs.declared.run.Run.{Run};
ghost use Rattle.monk_logs.specs.{Log.LogHeading, declared.text.line.LogLine.LogLine};
ghost use Rattle.monk_object.specs.Object.{Object};
ghost use Rattle.serde_json.specs.Written.{compact_text};

/// The data of a page are in it unbroken: they hold no `<`, `>` or `&` and no control character. So
/// they hold no end of the script, and nothing else that HTML would read.
pub fn data_are_unbroken()
    ensures { (h : Heading) (es : List Event) (w : Option Window)
        → is_plain_text (compact_text (window_json h es w)) ≡ true }
{}

/// The same for the data of a log's page.
pub fn logs_are_unbroken()
    ensures { (h : LogHeading) (o : Object) (d : List ℕ) (run : Run) (lines : List LogLine) (before last : ℕ)
        → is_plain_text (compact_text (log_json h o d run lines before last)) ≡ true }
{}
