//! The first word of a line of a log.

ghost use Rattle.std.specs.Prelude.{◌≡◌};
ghost use Rattle.monk_kinds.specs.Names.{with_text};
ghost use Rattle.monk_logs.specs.Log.Reading.{log_verb_word, log_verbs};

/// The verb of a line.
#[derive(Clone, Copy)]
pub(crate) enum LineVerb {
    Enter,
    Resume,
    Lapse,
    Leave,
    Wait,
    Signal,
    Broadcast,
    Until,
    Act,
}

impl LineVerb {
    /// Returns the verb with that word.
    pub(crate) fn of_text(word: &[u8]) -> Option<LineVerb>
        ensures { result ≡ with_text log_verb_word log_verbs word.now }
    {
        if word == b"enter".as_slice() {
            Some(LineVerb::Enter)
        } else if word == b"resume".as_slice() {
            Some(LineVerb::Resume)
        } else if word == b"lapse".as_slice() {
            Some(LineVerb::Lapse)
        } else if word == b"leave".as_slice() {
            Some(LineVerb::Leave)
        } else if word == b"wait".as_slice() {
            Some(LineVerb::Wait)
        } else if word == b"signal".as_slice() {
            Some(LineVerb::Signal)
        } else if word == b"broadcast".as_slice() {
            Some(LineVerb::Broadcast)
        } else if word == b"until".as_slice() {
            Some(LineVerb::Until)
        } else if word == b"act".as_slice() {
            Some(LineVerb::Act)
        } else {
            None
        }
    }
}
