use monk_draw::Picture;

/// How a history, or a run that tells a log, is shown.
#[derive(Clone, Copy)]
pub enum Show<'a> {
    /// A picture, with a lane for each seat and a column for each event. It shows where each seat was, and who
    /// went on by a release. The first forbidden event is marked, with its reason.
    Picture(Picture<'a>),
    /// A page: one HTML text that needs no other file, with that picture. It shows for each step the event, the
    /// state of the monitor, and for a release whom it might have chosen. For a log it shows who has the lock, who
    /// sleeps and who is woken. It also shows how a thread came back that relied on what no longer held.
    Page,
}

/// How a history is shown.
#[derive(Clone, Copy)]
pub(crate) enum HistoryForm<'a> {
    /// As [`Show::Picture`].
    Picture(Picture<'a>),
    /// As [`Show::Page`].
    Page,
    /// Its part of a page of several, with what its program says.
    Article(&'a str),
}
