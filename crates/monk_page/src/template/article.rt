//! Constant parts of a page, which template/make makes.

/// The text before the picture of a history.
pub(crate) const OPENING: &str = "\
<article class=\"history\">\n<h2 class=\"heading\"><span class=\"about\"></span> <span class=\"\
verdict\"></span></h2>\n<div class=\"picture card\" role=\"group\"\n  aria-label=\"Picture of \
the history. The table at the end of the page tells the same.\">\n";

/// The text between the picture and the data.
pub(crate) const MIDDLE: &str = "\
\n</div>\n<div class=\"strips\" aria-hidden=\"true\"></div>\n<noscript>\n<p>Stepping through n\
eeds this page's script. The picture shows the history as it is.</p>\n</noscript>\n<div class=\
\"stage\" hidden>\n  <section class=\"told card\" aria-label=\"What happens\">\n    <p class=\"\
say\" role=\"status\" aria-live=\"polite\" aria-atomic=\"true\"></p>\n    <p class=\"answer\" \
role=\"status\"></p>\n    <div class=\"choices\"></div>\n    <p class=\"data\"></p>\n    <p cl\
ass=\"line\"></p>\n  </section>\n  <section class=\"boxes\" aria-label=\"The monitor\"></secti\
on>\n</div>\n<section class=\"kinds\" aria-label=\"Kinds\" hidden>\n  <h2>The same events unde\
r each kind, and the step that it forbids first. Such a kind isn&#8217;t wrong: under it the t\
hreads would go other ways.</h2>\n  <ul class=\"chips\"></ul>\n  <div class=\"notes\"></div>\n\
</section>\n<details class=\"all\" hidden><summary>All steps as a table</summary><div class=\"\
table\"></div></details>\n<script type=\"application/json\" class=\"history-data\">\n";

/// The text between the data and what was given beside the history.
pub(crate) const BESIDE: &str = "\
\n</script>\n<script type=\"application/json\" class=\"told-data\">\n";

/// The text after that.
pub(crate) const CLOSING: &str = "\
\n</script>\n</article>\n";
