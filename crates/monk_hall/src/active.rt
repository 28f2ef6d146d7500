ghost use Rattle.std.specs.Prelude.{◌≡◌, ◌+◌, ◌<◌, ◌≤◌, length};
ghost use Rattle.monk_history.specs.Meaning.{Conditions.condition, Counts.events_of, Legal.IsLegal, Monitor.data_of};
ghost use Rattle.monk_history.specs.Limits.{most_lines};
ghost use Rattle.monk_floor.specs.View.{monitor_of};
ghost use Rattle.monk_hall.specs.{Calls.HasDone, Layout.floor_of};

use crate::boxed_floor::BoxedFloor;
use crate::rule::TableSeat;
use crate::seat_numbers::SeatNumbers;
use monk_history::Event;
use monk_kinds::Kind;
use monk_object::{Guarded, Op};
use std::marker::Model;

/// The token of the active seat. It can't be dropped: its seat leaves, waits, or makes another of the calls that
/// release.
pub struct Active<K: Kind, T: Guarded> {
    pub(crate) seat: TableSeat<K, T>,
    pub(crate) numbers: SeatNumbers,
    pub(crate) floor: BoxedFloor<K, T>,
}

impl<K: Kind, T: Guarded> Model for Active<K, T> {
    ghost use Rattle.monk_hall.specs.Records.{the};
    ghost use Rattle.monk_hall.specs.Tokens.{Holder, IsHolding, with_own};

    ghost Value = { Holder };

    ghost view = { λ a. record { hall = a.seat.table_id; me = with_own (the a.seat.me.0) a.floor; floor = a.floor } };

    ghost invariant = { λ a. IsHolding K.rules T.meaning a.seat.table_id a.seat.me a.numbers a.floor };
}

impl<K: Kind, T: Guarded> Active<K, T> {
    /// Returns the number of its seat.
    pub fn seat(&self) -> u8
        ensures { result ≡ self.now.me.seat }
    {
        self.numbers.seat
    }

    /// Returns how many events its seat has left of its budget: at least one. Its floor has the numbers of the hall.
    pub fn left(&self) -> u32
        ensures left { result + length self.now.me.mine ≡ self.now.me.setting.budget }
        ensures some { 1 ≤ result }
        ensures floor { self.now.floor ≡ floor_of self.now.me.setting self.now.floor.history }
    {
        self.floor.left(self.numbers.seat)
    }

    /// Returns the history up to now, which is legal, and short enough for a text. The seat's events in it are its own.
    pub fn history(&self) -> &[Event]
        ensures history { result.now ≡ self.now.floor.history }
        ensures legal { IsLegal (monitor_of K.rules T.meaning self.now.floor) self.now.floor.history }
        ensures own { events_of self.now.floor.history self.now.me.seat ≡ self.now.me.mine }
        ensures few { length self.now.floor.history ≤ most_lines }
    {
        self.floor.history()
    }

    /// Whether a predicate of the object holds for the data now. `pred` is below the object's `PREDICATES`: 2 for a
    /// buffer and a book, 3 for a shop, 32 for flags. It changes nothing.
    pub fn holds(&self, pred: u8) -> bool
        requires { pred < T.PREDICATES }
        ensures { result ≡ T.meaning.holds
            (data_of (monitor_of K.rules T.meaning self.now.floor) self.now.floor.history) pred }
    {
        self.floor.holds(pred)
    }

    /// Returns how many seats wait on a condition variable.
    pub fn waiting(&self, cond: u8) -> u32
        requires { cond < self.now.me.setting.conds }
        ensures { result ≡ length (condition cond self.now.floor.history) }
    {
        self.floor.waiting(cond)
    }

    /// Carries an operation out on the object, and returns its reply. No step is taken.
    pub fn act(&mut self, op: Op) -> u64
        requires code { op.code < T.CODES }
        requires left { length self.old.me.mine + 2 ≤ self.old.me.setting.budget }
        ensures done { HasDone K.rules T.meaning self.old (Event.Act self.old.me.seat op result) self.new }
        ensures within { result ≤ T.greatest_reply }
    {
        self.floor.act(self.numbers.seat, op)
    }
}
