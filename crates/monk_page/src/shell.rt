//! The text around the pictures and the data of a page.

ghost use Rattle.std.specs.Prelude.{◌≡◌, IfOk, string_bytes};
ghost use Rattle.monk_page.specs.Html.{article, page_of};

use crate::template::article::{BESIDE, CLOSING, MIDDLE, OPENING};
use crate::template::front::FRONT;
use crate::template::shared::SHARED;
use std::alloc::{AllocError, Global};

/// What is put beside a history if its program says nothing.
pub const NOTHING_TOLD: &str = "null";

/// Returns a picture and data, with what the program says beside them.
pub(crate) fn article_around(
    alloc: Global,
    picture: &str,
    json: &str,
    told: &str,
) -> Result<String, AllocError>
    ensures { IfOk result (λ text. string_bytes text ≡ article picture.now json.now told.now) }
{
    format!(in alloc; "{OPENING}{picture}{MIDDLE}{json}{BESIDE}{told}{CLOSING}")
}

/// Returns articles as a page with that end.
pub(crate) fn page_with(alloc: Global, articles: &str, end: &str) -> Result<String, AllocError>
    ensures { IfOk result (λ page. string_bytes page ≡ page_of articles.now end.now) }
{
    format!(in alloc; "{FRONT}{articles}{SHARED}{end}")
}
