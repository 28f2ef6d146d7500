//! What holds for every history, as laws that other crates may cite.
ghost use Rattle.std.specs.Prelude.{◌≡◌, ◌≢◌, ◌≤◌, ◌<◌, ◌↔◌, ℕ, nat_lt, IsTrue, List, [], ◌∷◌, ◌++◌};
ghost use Rattle.monk_kinds.specs.{Kind.IsKind, Names.rules_named};
ghost use Rattle.monk_kinds.specs.declared.{name.KindName.KindName, mode.Pick.Pick, mode.Rules.Rules};
ghost use Rattle.monk_history.specs.declared.event.{From3.From3, Via.TheVariants.Free, Via.TheVariants.Handed};
ghost use Rattle.monk_history.specs.declared.event.Event.{Event, TheVariants.Enter, TheVariants.Resume};
ghost use Rattle.monk_history.specs.Meaning.{Acts.IsRunOf, Acts.IsInOrder, Acts.ExcludesEachOther, Acts.ServesEachOne};
ghost use Rattle.monk_history.specs.Meaning.{Acts.HoldsLastSet, Acts.acts_in, Counts.events_of, Legal.IsLegal};
ghost use Rattle.monk_history.specs.Meaning.{Monitor.Monitor, Monitor.monitor, Monitor.data_of, Moves.CountsAfter};
ghost use Rattle.monk_history.specs.Meaning.{Moves.StandsAfter, Reasons.IsAllowed, Situation.situation, Turn.is_inside};
ghost use Rattle.monk_history.specs.Meaning.Standing.{IsPlaced, in_queues};
ghost use Rattle.monk_history.specs.Meaning.Promises.{HoaresRule, NobodyComesBetween, ThePredicateHolds, hands_over};
ghost use Rattle.monk_history.specs.Meaning.Promises.{has_hoares_rule, puts_callers_last};
ghost use Rattle.monk_history.specs.Meaning.Untils.{untils, untils_while_false, StaysWhereItHolds};
ghost use Rattle.monk_history.specs.Meaning.Release.{MayCall, as_called};
ghost use Rattle.monk_history.specs.Meaning.Entry.{AdmitsUnknown, IsAtDoor, IsDueFrom, IsQuiet};
ghost use Rattle.monk_object.specs.declared.name.ObjectName.TheVariants.{Buffer, Book, Shop, Flags};
ghost use Rattle.monk_object.specs.Names.{meaning_named, opening_named};

/// The empty history is legal, and a legal history plus one allowed event is legal.
pub fn history_grows()
    ensures none { (m : Monitor) → IsLegal m [] }
    ensures more { (m : Monitor) (h : List Event) (e : Event) → IsLegal m h → IsAllowed m h e
        → IsLegal m (h ++ e ∷ []) }
    ensures front { (m : Monitor) (h more : List Event) → IsLegal m (h ++ more) → IsLegal m h }
{}

/// How one more event changes the counts of each seat, and the turn.
pub fn event_counts()
    ensures { (h : List Event) (e : Event) → CountsAfter h e }
{}

/// In a legal history each seat inside is in exactly one place (a queue or the turn), and no other
/// seat is in any.
pub fn seats_stand_once()
    ensures placed { (m : Monitor) (h : List Event) → IsLegal m h → IsPlaced m.conds (situation m h) }
    ensures queued_once { (m : Monitor) (h : List Event) → IsLegal m h → (s : ℕ)
        → in_queues m.conds s (situation m h) ≤ 1 }
{}

/// How one more allowed event changes where its own seat, the seat that it chose and every other seat are.
pub fn event_moves_seats()
    ensures { (m : Monitor) (h : List Event) (e : Event) → IsLegal m h → IsAllowed m h e
        → StandsAfter m (situation m h) e (situation m (h ++ e ∷ [])) }
{}

/// When exactly a seat may enter. If it finds the monitor free, there may be nobody who could be chosen from a queue.
/// If another seat lets it in, it may not be the first to come in.
pub fn seat_enters()
    ensures free { (m : Monitor) (h : List Event) (s : ℕ)
        → IsAllowed m h (Enter s Free) ↔ (IsAtDoor m h s × IsQuiet m h) }
    ensures handed { (m : Monitor) (h : List Event) (s : ℕ)
        → IsAllowed m h (Enter s Handed) ↔ (IsAtDoor m h s × (h ≢ [])) }
{}

/// If a release lets the entry in and nobody is known to wait there, it leaves nobody who could be chosen from a
/// queue. If somebody could be chosen, entry is chosen only if `entry_known` says so.
pub fn entry_is_quiet()
    ensures { (m : Monitor) (h : List Event) (e : Event) (wish : Pick) → IsLegal m h → IsAllowed m h e
        → AdmitsUnknown m (situation m h) e wish → IsQuiet m (h ++ e ∷ []) }
{}

/// A seat may resume if, and only if, the turn is due to it from that queue.
pub fn seat_resumes()
    ensures { (m : Monitor) (h : List Event) (s : ℕ) (q : From3) → IsAllowed m h (Resume s q) ↔ IsDueFrom m h s q }
{}

/// A seat knows from its own events whether it is inside.
pub fn inside_by_own_events()
    ensures { (s : ℕ) (h : List Event) → is_inside s (events_of h s) ≡ is_inside s h }
{}

/// What is allowed may be called, without its choice and its reply.
pub fn allowed_may_be_called()
    ensures { (m : Monitor) (h : List Event) (e : Event) → IsAllowed m h e → MayCall m h (as_called e) }
{}

/// In a legal history the waits-until are the untils whose predicate was false for the data before them. An until
/// goes on at once if, and only if, its predicate holds.
pub fn untils_were_false()
    ensures queue { (m : Monitor) (h : List Event) → IsLegal m h → untils_while_false m h ≡ untils h }
    ensures each { (m : Monitor) (h : List Event) → IsLegal m h → StaysWhereItHolds m h }
{}

/// Hoare's rule: the seat that a signal serves goes on next, and finds the data of the signal. What held at the
/// signal still holds, so an `if` suffices. It holds under a blocking kind, and under immediate return if waiters go
/// before callers. Of the ten kinds these are PB, NPB and PIR.
pub fn hoares_rule()
    ensures rule { (m : Monitor) (h : List Event) → IsKind m.kind → IsTrue (hands_over m.kind) → IsLegal m h
        → HoaresRule m h }
    ensures kinds { (k : KindName) → hands_over (rules_named k) ≡ has_hoares_rule k }
{}

/// If a kind puts waiters before callers, nobody enters between a signal and the moment when the seat that it served
/// goes on. So only seats that were inside already can have changed the data. Of the ten kinds these are the P kinds
/// and NPB.
pub fn nobody_comes_between()
    ensures rule { (m : Monitor) (h : List Event) → m.kind.entry < m.kind.waiter → IsLegal m h → NobodyComesBetween h }
    ensures kinds { (k : KindName) → nat_lt (rules_named k).entry (rules_named k).waiter ≡ puts_callers_last k }
{}

/// When a seat goes on from a wait-until, its predicate holds for the data.
pub fn the_predicate_holds()
    ensures { (m : Monitor) (h : List Event) → IsLegal m h → ThePredicateHolds m h }
{}

/// The acts of a legal history are a run of its object from the opening state. Each reply is the object's, and the
/// data are the state that the acts lead to.
pub fn acts_are_a_run()
    ensures { (m : Monitor) (h : List Event) → IsLegal m h → IsRunOf m h }
{}

/// In a legal history over a buffer the items put are those that were taken, in order, followed by those inside.
pub fn legal_buffer_is_in_order()
    ensures { (rules : Rules) (seats conds size : ℕ) (h : List Event) → let m =
        monitor rules seats conds (meaning_named Buffer) (opening_named Buffer size) in IsLegal m h
        → IsInOrder size (data_of m h) (acts_in h) }
{}

/// In a legal history over a book a writer is inside alone, and at most as many read at once as its size says.
pub fn legal_book_excludes()
    ensures { (rules : Rules) (seats conds size : ℕ) (h : List Event) → let m =
        monitor rules seats conds (meaning_named Book) (opening_named Book size) in IsLegal m h
        → ExcludesEachOther size (data_of m h) (acts_in h) }
{}

/// In a legal history over a shop no customer is lost. Each that sat was called or still sits. Each that was called was
/// served or is being served. Each that was served departed or is about to.
pub fn legal_shop_loses_nobody()
    ensures { (rules : Rules) (seats conds size : ℕ) (h : List Event) → let m =
        monitor rules seats conds (meaning_named Shop) (opening_named Shop size) in IsLegal m h
        → ServesEachOne size (data_of m h) (acts_in h) }
{}

/// In a legal history over flags the bits are those of the last set that was done, and none before the first set.
pub fn legal_flags_hold_the_last_set()
    ensures { (rules : Rules) (seats conds size : ℕ) (h : List Event) → let m =
        monitor rules seats conds (meaning_named Flags) (opening_named Flags size) in IsLegal m h
        → HoldsLastSet size (data_of m h) (acts_in h) }
{}
