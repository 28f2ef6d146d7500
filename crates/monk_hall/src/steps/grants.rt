//! The two steps that grant, and what they return: a grant whose sleeper is not yet woken.
ghost use Rattle.std.specs.Prelude.{◌≡◌, ◌<◌, [], ◌∷◌};
ghost use Rattle.monk_history.specs.Meaning.Counts.{granted_of};
ghost use Rattle.monk_world.specs.Places.{stage, ticket, back_turn, due_to, passing_stage};
ghost use Rattle.monk_hall.specs.declared.deed.Deed.TheVariants as deed;
ghost use Rattle.monk_hall.specs.{Changes.record_after_grant, Records.IsOne, Records.the};
ghost use Rattle.monk_hall.specs.Layout.{ticket_word, seat_word, word_count};
ghost use Rattle.monk_hall.specs.Tells.{IsOfTable, IsSameSeat, TellsTicketGrant, TellsCall};

use super::{Words, seat_word, ticket_word, word_after};
use crate::boxed_floor::BoxedFloor;
use crate::pace::Pace;
use crate::record::View;
use crate::rule::{SharedTable, TableSeat};
use atomic_table::Play;
use monk_kinds::Kind;
use monk_object::Guarded;
use std::marker::Model;
use std::snapshot::Snapshot;

/// Step 7: a seat grants the next ticket. No other module can name this type.
struct TicketGrantStep;

impl<K: Kind, T: Guarded> Play<Option<BoxedFloor<K, T>>, View> for TicketGrantStep {
    ghost then = { λ step me found new. TellsTicketGrant me found new };
}

/// Step 8: a seat calls the seat that it chose. No other module can name this type.
struct CallStep;

impl<K: Kind, T: Guarded> Play<Option<BoxedFloor<K, T>>, View> for CallStep {
    ghost then = { λ step me found new. TellsCall me found new };
}

/// Whether the word has the place of a ticket. The others have those of seats.
fn is_for_entry(word: usize) -> bool {
    word % 2 == 1
}

/// A grant that was stored in a word of a hall's table, and whose sleeper is not yet woken. It can't be dropped, and
/// only two calls spend it. `wake` wakes the thread that sleeps on the word. `into_word` returns the word to a
/// program whose threads sleep elsewhere, and which has to wake the one that waits for it.
pub struct Granted<K: Kind, T: Guarded> {
    word: usize,
    of: Snapshot<SharedTable<K, T>>,
}

impl<K: Kind, T: Guarded> Model for Granted<K, T> {
    ghost use Rattle.std.specs.Prelude.{◌<◌};
    ghost use Rattle.monk_hall.specs.Granting.{Grant};

    ghost Value = { Grant };

    ghost view = { λ g. record { table = g.of.value.table_id; word = g.word } };

    ghost invariant = { λ g. g.word < g.of.value.table_id.words };
}

impl<K: Kind, T: Guarded> Granted<K, T> {
    /// Wakes the thread that sleeps on the word, if there is one. If a ticket was granted, and the pace of visits asks
    /// for it, it also wakes the one that sleeps for the next ticket.
    pub(crate) fn wake_in(self, words: &Words<K, T>, seats: u8, pace: &Pace)
        requires table { self.table ≡ words.now.table.shared.table_id }
        requires sized { (words.now.table.shared.table_id.words ≡ word_count seats) × (0 < seats) }
    {
        let Granted { word, of: _ } = self;
        words.wake_sleeper(word);
        if is_for_entry(word) && pace.wakes_ahead(seats) {
            words.wake_sleeper(word_after(seats, word));
        }
    }

    /// Returns the word that was granted, for a program whose threads sleep elsewhere. It wakes nobody: the caller
    /// has to wake the thread that waits for this word (`Parked::word`), if one sleeps there.
    pub fn into_word(self) -> usize
        ensures { result ≡ self.word }
    {
        let Granted { word, of: _ } = self;
        word
    }
}

/// Step 7: grants the next ticket, in its place. Returns the grant.
pub(crate) fn ticket_grant<K: Kind, T: Guarded>(
    words: &Words<K, T>,
    seat: &mut TableSeat<K, T>,
    seats: u8,
    number: u32,
) -> Granted<K, T>
    requires table { IsOfTable seat.old words.now.table.shared.table_id words.now.table.shared.key.seats }
    requires seats { (seats ≡ words.now.table.shared.key.seats) × (0 < seats) }
    requires passing { IsOne seat.old.me.0 × (stage (the seat.old.me.0).place ≡ passing_stage)
        × (number ≡ ticket (the seat.old.me.0).place) }
    ensures table { IsSameSeat seat.old seat.new }
    ensures step { seat.new.me ≡
        (record_after_grant (the seat.old.me.0) (deed.GrantTicket number) ∷ [], seat.old.me.1) }
    ensures granted { (result.table ≡ words.now.table.shared.table_id) × (result.word ≡ ticket_word seats number) }
{
    let words = &words.table.shared;
    let place = ticket_word(seats, number);
    words.store::<TicketGrantStep>(seat, place, number as u64 + 1);
    Granted {
        word: place,
        of: Snapshot::of(words),
    }
}

/// Step 8: calls the seat that it chose, in that seat's place. `calls` is the new value there: how many events have
/// chosen that seat from a queue.
pub(crate) fn seat_grant<K: Kind, T: Guarded>(
    words: &Words<K, T>,
    seat: &mut TableSeat<K, T>,
    called: u8,
    calls: u32,
) -> Granted<K, T>
    requires table { IsOfTable seat.old words.now.table.shared.table_id words.now.table.shared.key.seats }
    requires near { called < words.now.table.shared.key.seats }
    requires back { IsOne seat.old.me.0 × (back_turn (the seat.old.me.0).place ≡ due_to called)
        × (calls ≡ granted_of (the seat.old.me.0).seen called) }
    ensures table { IsSameSeat seat.old seat.new }
    ensures step { seat.new.me ≡
        (record_after_grant (the seat.old.me.0) (deed.CallSeat called) ∷ [], seat.old.me.1) }
    ensures granted { (result.table ≡ words.now.table.shared.table_id) × (result.word ≡ seat_word called) }
{
    let words = &words.table.shared;
    let place = seat_word(called);
    words.store::<CallStep>(seat, place, calls as u64);
    Granted {
        word: place,
        of: Snapshot::of(words),
    }
}
