//! What holds for each kind of step, of any seat: it keeps the right to be active in one place, in agreement with the
//! turn and the queues of the history. Each function does nothing: its contract is the law.
ghost use Rattle.monk_world.specs.Laws.{OpeningStands, ArriveKeeps, TicketLookKeeps, SeatLookKeeps, FloorOutKeeps};
ghost use Rattle.monk_world.specs.Laws.{ActiveKeeps, FloorInKeeps, DropKeeps, TicketGrantKeeps, SeatGrantKeeps};
ghost use Rattle.monk_world.specs.Laws.{StandsInOnePlace, StepsStaySound, OpeningIsSound, StepsAreAnswered};
ghost use Rattle.monk_world.specs.Laws.{StepsAreDetermined};
ghost use Rattle.monk_world.specs.Records.{RunsAreRecorded, StepsAreTaken, TicketsEnterInOrder};
ghost use Rattle.monk_world.specs.Runs.{RunsAreWellLed};

/// Before any step the monitor is free, every seat is idle, and all queues are empty.
pub fn opening_stands()
    ensures { OpeningStands }
{}

/// A seat that arrives draws the next ticket. If the monitor was free, the seat has the right.
pub fn arrive_keeps_the_right()
    ensures { ArriveKeeps }
{}

/// A seat that looks at the place of its ticket takes the right if, and only if, it finds its own ticket there. It
/// never takes an older grant at the same place for its own.
pub fn ticket_look_keeps_the_right()
    ensures { TicketLookKeeps }
{}

/// A seat that looks at its own place takes the right if, and only if, it was called once more than it has counted.
pub fn seat_look_keeps_the_right()
    ensures { SeatLookKeeps }
{}

/// The floor comes out to the seat that is due, whatever the recorded event does to the turn.
pub fn floor_out_keeps_the_right()
    ensures { FloorOutKeeps }
{}

/// While a seat is active it may extend the history in any way, as long as every other seat stays queued, or not
/// queued, as it was.
pub fn activity_keeps_the_right()
    ensures { ActiveKeeps }
{}

/// The active seat takes the floor home with its choice.
pub fn floor_in_keeps_the_right()
    ensures { FloorInKeeps }
{}

/// A seat that chose entry takes itself off the ticket word. Then the monitor is free, or the seat has the next
/// ticket to grant. That may be a ticket that was drawn while the seat was on its way.
pub fn drop_keeps_the_right()
    ensures { DropKeeps }
{}

/// The right goes to the next ticket, through the ticket's place.
pub fn ticket_grant_keeps_the_right()
    ensures { TicketGrantKeeps }
{}

/// The right goes to the seat that was chosen, through the seat's place.
pub fn seat_grant_keeps_the_right()
    ensures { SeatGrantKeeps }
{}

/// The right to be active is in exactly one place, and a seat waits with each ticket after the one in use.
pub fn right_is_in_one_place()
    ensures { StandsInOnePlace }
{}

/// Each command of each seat has exactly one answer and one next state, in every state.
pub fn steps_are_a_function()
    ensures answered { StepsAreAnswered }
    ensures determined { StepsAreDetermined }
{}

/// Every step, also a refused one, keeps a state sound: its history is legal, and the right is in one place. Turn,
/// queues, enters and the events that are left to each seat agree with where the seats are.
pub fn steps_stay_sound()
    ensures opening { OpeningIsSound }
    ensures step { StepsStaySound }
{}

/// For every kind, object, number of seats and list of commands: the right to be active is in exactly one place, and
/// the history is legal. A seat is active if, and only if, the turn is its own. Tickets enter in their order.
pub fn runs_are_well_led()
    ensures { RunsAreWellLed }
{}

/// From every sound state, for every list of commands: the history grows by at most one event a step, an event of the
/// seat of the command. So each seat's events are those that its own commands appended, each once. The enter with k
/// enters before it is that of ticket k, which an arrival of that seat drew. If entry was chosen, nobody could have
/// been chosen from a queue, or a ticket was waiting.
pub fn runs_are_recorded()
    ensures taken { StepsAreTaken }
    ensures recorded { RunsAreRecorded }
    ensures tickets { TicketsEnterInOrder }
{}
