//! What holds for a hall's table if its rule holds. Every step preserves the rule, so this holds at every moment. Each
//! function does nothing: its contract is the law.
ghost use Rattle.monk_hall.specs.{GrantsInTurn.GrantsComeInTurn, Wakes.NoWakeIsMissed};
ghost use Rattle.monk_hall.specs.{Schedules.EveryScheduleIsOneHistory};
ghost use Rattle.monk_hall.specs.HandOver.{FloorChangesHands, NeverByReadsAlone};
ghost use Rattle.monk_hall.specs.NextTicket.{NextTicketWaits, NoTicketWaits, GrantedEntersNext, OneWaitsAtAWord};
ghost use Rattle.monk_hall.specs.Laws.{RightInOnePlace, IdleIsFree, ShowsWellLed, OneHasTheRight, OneIsActive};
ghost use Rattle.monk_hall.specs.Laws.{KnownWaits, EntryWaits, ArriveSteps, TicketLookSteps, SeatLookSteps, PeekSteps};
ghost use Rattle.monk_hall.specs.Laws.{FloorOutSteps, FloorInSteps, DropSteps, TicketGrantSteps, SeatGrantSteps};
ghost use Rattle.monk_hall.specs.Laws.{HasHomeHistory};
ghost use Rattle.monk_hall.specs.FewSteps.{ArrivalsAreFewSteps, PollsAreFewSteps, ComesInFewSteps, ReleasesAreFewSteps};
ghost use Rattle.monk_hall.specs.FewSteps.{StaysAreFewSteps, BusyIsFewSteps, GrantsAreSteps, UnlookedLearnsNothing};

/// For every kind, object, number of seats and schedule of the table's steps from its opening: the right to be active
/// is in exactly one place, and at most one seat is active. All that the steps took home, in order, is one history
/// that only grows. It is legal and begins with all that each seat has seen. For each seat it has the events that the
/// seat's own steps took home, each once. Seats enter in the order of their tickets. Each release that took the floor
/// home chose by the wish rules. It knew of somebody at the entry only by a look that found somebody. If it chose
/// entry, nobody could be chosen from a queue, or a ticket waits.
pub fn every_schedule_is_one_history()
    ensures { EveryScheduleIsOneHistory }
{}

/// The words, the records of the seats and the floor show a state of a world that is well led. The right to be active
/// is in exactly one place, and the history is legal. Turn and queues agree with where the seats are.
pub fn hall_is_well_led()
    ensures right { RightInOnePlace }
    ensures led { ShowsWellLed }
{}

/// If each seat is outside and has drawn no ticket, the monitor is free. So the next seat that arrives comes in.
pub fn idle_hall_is_free()
    ensures { IdleIsFree }
{}

/// At most one seat is active, and at most one has the right: two records that say so are the same record.
pub fn one_is_active()
    ensures active { OneIsActive }
    ensures right { OneHasTheRight }
{}

/// If an active seat knows of somebody at the entry, that is true: one more ticket than the one in use is not yet
/// passed on.
pub fn known_entry_waits()
    ensures { KnownWaits }
{}

/// If a seat chooses entry although somebody could be chosen from a queue, a ticket waits.
pub fn chosen_entry_waits()
    ensures { EntryWaits }
{}

/// If a release by entry has taken the floor home, and another ticket than the one in use is not passed on, exactly
/// one seat waits with the next ticket. The number of that ticket is the number of enters so far.
pub fn next_ticket_waits()
    ensures { NextTicketWaits }
{}

/// If a release by entry has taken the floor home, and only the ticket in use is not passed on, no seat waits with a
/// ticket, and nothing is to be granted.
pub fn no_ticket_waits()
    ensures { NoTicketWaits }
{}

/// If a release chose entry and granted a word, and the next seat that enters waited with a ticket, it waited at that
/// word.
pub fn granted_ticket_enters_next()
    ensures { GrantedEntersNext }
{}

/// At most one seat waits at a word: two that look at the same word for their grant are the same seat. So a grant
/// wakes the seat that it is for, and no other seat takes its wake.
pub fn one_waits_at_a_word()
    ensures { OneWaitsAtAWord }
{}

/// In every schedule, between two steps that grant one word, the seat of the first grant has looked at that word and
/// found it. So no grant comes to a word before the one that is there is taken.
pub fn grants_come_in_turn()
    ensures { GrantsComeInTurn }
{}

/// In every schedule, between a step that takes the floor home and the next that takes it out: the seat that took it
/// home writes a word afterwards, and the seat that takes it out reads there what that step wrote, before it takes the
/// floor. So a hand-over is never by steps that only read.
pub fn floor_changes_hands_by_a_word()
    ensures word { FloorChangesHands }
    ensures reads { NeverByReadsAlone }
{}

/// In every run of threads that wait and wake beside the steps of the table: a seat whose thread sleeps sleeps on its
/// own word, and the mark of that word is set, so its wake isn't skipped; if its grant is there, the wake of that word
/// is still to come. `specs/Wakes.antt` says what threads do.
pub fn no_wake_is_missed()
    ensures { NoWakeIsMissed }
{}

/// What a call's contract says that its token did is few steps: at most one for an arrival, two for a poll, four for
/// a release, and one for a refused close. Wakes aren't counted. A release that grants does so in its last step. One
/// that takes no look learns nothing of the entry.
pub fn calls_are_few_steps()
    ensures arrivals { ArrivalsAreFewSteps }
    ensures polls { PollsAreFewSteps }
    ensures comes_in { ComesInFewSteps }
    ensures releases { ReleasesAreFewSteps }
    ensures stays { StaysAreFewSteps }
    ensures busy { BusyIsFewSteps }
    ensures grants { GrantsAreSteps }
    ensures unlooked { UnlookedLearnsNothing }
{}

/// The floor is with the active seat, or else at home in its slot. The history at home is the one that an active seat
/// found. It is legal and begins with all that each seat has seen. Its events of each seat are exactly those that the
/// seat knows as its own.
pub fn home_history_is_shared()
    ensures { HasHomeHistory }
{}

/// Each step of the table, from a table under the rule, leads to a table under the rule. It is the step of the world
/// by the same command and with the same answer. A floor comes home with what its seat has done and the step that
/// released it. That is the release that the seat made with the floor in its hands, with its wish.
pub fn table_steps_are_the_worlds()
    ensures arrival { ArriveSteps }
    ensures ticket_look { TicketLookSteps }
    ensures call_look { SeatLookSteps }
    ensures peek { PeekSteps }
    ensures floor_out { FloorOutSteps }
    ensures floor_in { FloorInSteps }
    ensures drop { DropSteps }
    ensures ticket_grant { TicketGrantSteps }
    ensures seat_grant { SeatGrantSteps }
{}
