//! The first word of an action.

ghost use Rattle.std.specs.Prelude.{◌≡◌};
ghost use Rattle.monk_kinds.specs.Names.{with_text};
ghost use Rattle.monk_world.specs.Play.Reading.{play_verb_version, play_verb_word, play_verbs, play_verbs_of};

/// Which command it is.
#[derive(Clone, Copy)]
pub(crate) enum CommandVerb {
    Arrive,
    Look,
    Out,
    Peek,
    Drop,
    Grant,
    Act,
    Leave,
    Wait,
    Signal,
    SignalLeave,
    Until,
    SignalAll,
    SignalWait,
}

impl CommandVerb {
    const ALL: [CommandVerb; 14] = [
        CommandVerb::Arrive,
        CommandVerb::Look,
        CommandVerb::Out,
        CommandVerb::Peek,
        CommandVerb::Drop,
        CommandVerb::Grant,
        CommandVerb::Act,
        CommandVerb::Leave,
        CommandVerb::Wait,
        CommandVerb::Signal,
        CommandVerb::SignalLeave,
        CommandVerb::Until,
        CommandVerb::SignalAll,
        CommandVerb::SignalWait,
    ];

    /// Returns the verb of that version that has this word, byte for byte.
    pub(crate) fn of_version(word: &[u8], version: u8) -> Option<CommandVerb>
        ensures { result ≡ with_text play_verb_word (play_verbs_of version) word.now }
    {
        match CommandVerb::of_text(word) {
            Some(verb) if verb.first_version() <= version => Some(verb),
            _ => None,
        }
    }

    /// Returns the first version that has it.
    fn first_version(self) -> u8
        ensures { result ≡ play_verb_version self }
    {
        match self {
            CommandVerb::Arrive
            | CommandVerb::Look
            | CommandVerb::Out
            | CommandVerb::Peek
            | CommandVerb::Drop
            | CommandVerb::Grant
            | CommandVerb::Act
            | CommandVerb::Leave
            | CommandVerb::Wait
            | CommandVerb::Signal
            | CommandVerb::SignalLeave
            | CommandVerb::Until => 1,
            CommandVerb::SignalAll | CommandVerb::SignalWait => 2,
        }
    }

    /// Returns the verb of any version that has this word.
    fn of_text(word: &[u8]) -> Option<CommandVerb>
        ensures { result ≡ with_text play_verb_word play_verbs word.now }
    {
        CommandVerb::ALL
            .iter()
            .copied()
            .find(|verb| word == verb.text())
    }

    /// Returns its word.
    fn text(self) -> &'static [u8]
        ensures { result.now ≡ play_verb_word self }
    {
        match self {
            CommandVerb::Arrive => b"arrive",
            CommandVerb::Look => b"look",
            CommandVerb::Out => b"out",
            CommandVerb::Peek => b"peek",
            CommandVerb::Drop => b"drop",
            CommandVerb::Grant => b"grant",
            CommandVerb::Act => b"act",
            CommandVerb::Leave => b"leave",
            CommandVerb::Wait => b"wait",
            CommandVerb::Signal => b"signal",
            CommandVerb::SignalLeave => b"signal-leave",
            CommandVerb::Until => b"until",
            CommandVerb::SignalAll => b"signal-all",
            CommandVerb::SignalWait => b"signal-wait",
        }
    }
}
