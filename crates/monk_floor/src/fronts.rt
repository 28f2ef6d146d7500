ghost use Rattle.std.specs.Prelude.{◌≡◌};
ghost use Rattle.monk_history.specs.Meaning.Wish as wish;
ghost use Rattle.monk_history.specs.Just.{just};

use monk_history::Next;
use monk_kinds::{Mode, Pick, Rules};

/// The fronts of the queues that a release chooses from.
#[derive(Clone, Copy)]
pub struct Fronts {
    pub waiter: Option<u8>,
    pub signaller: Option<u8>,
    pub ready: Option<u8>,
}

impl Fronts {
    ghost use Rattle.monk_floor.specs.Fronts.{queues};

    fn inner(self, rules: Rules) -> Option<u8>
        ensures { just result ≡ wish.inner_waiters rules (queues self) }
    {
        if rules.mode == Mode::Automatic {
            self.ready
        } else {
            self.waiter
        }
    }

    fn is_waiter_open(self, rules: Rules) -> bool
        ensures { result ≡ wish.is_waiter_open rules (queues self) }
    {
        self.inner(rules).is_some() && (self.signaller.is_none() || rules.signaller <= rules.waiter)
    }

    fn is_signaller_open(self, rules: Rules) -> bool
        ensures { result ≡ wish.is_signaller_open rules (queues self) }
    {
        self.signaller.is_some() && (self.inner(rules).is_none() || rules.waiter <= rules.signaller)
    }

    fn is_entry_open(self, rules: Rules, entry_known: bool) -> bool
        ensures { result ≡ wish.is_entry_open rules (queues self) entry_known }
    {
        entry_known
            && (self.inner(rules).is_none() || rules.waiter <= rules.entry)
            && (self.signaller.is_none() || rules.signaller <= rules.entry)
    }

    fn waiter_choice(self, rules: Rules) -> Next
        ensures { result ≡ wish.waiter_choice rules (queues self) }
    {
        if rules.mode == Mode::Automatic {
            Next::Until(self.ready.unwrap_or(0))
        } else {
            Next::Waiter(self.waiter.unwrap_or(0))
        }
    }

    fn signaller_choice(self, seat: u8) -> Next
        ensures { result ≡ wish.signaller_choice (queues self) seat }
    {
        let front = self.signaller.unwrap_or(0);
        if front == seat {
            Next::Stay
        } else {
            Next::Signaller(front)
        }
    }

    fn unwished(self, rules: Rules, seat: u8) -> Next
        ensures { result ≡ wish.unwished_choice rules (queues self) seat }
    {
        if self.inner(rules).is_none() && self.signaller.is_none() {
            Next::Entry
        } else if self.is_waiter_open(rules) {
            self.waiter_choice(rules)
        } else {
            self.signaller_choice(seat)
        }
    }

    /// Returns the choice of a seat's release, by its wish and by whether somebody is known to wait for entry.
    pub fn choose(self, rules: Rules, seat: u8, entry_known: bool, pick: Pick) -> Next
        ensures { result ≡ wish.choice_by rules (queues self) seat entry_known pick }
    {
        match pick {
            Pick::Entry if self.is_entry_open(rules, entry_known) => Next::Entry,
            Pick::Waiter if self.is_waiter_open(rules) => self.waiter_choice(rules),
            Pick::Signaller if self.is_signaller_open(rules) => self.signaller_choice(seat),
            _ => self.unwished(rules, seat),
        }
    }
}
