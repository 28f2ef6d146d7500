ghost use Rattle.std.specs.Prelude.{◌≡◌, ◌<◌, ◌≤◌, length, Option, Some, None, IfOk, IfErr};
ghost use Rattle.monk_floor.specs.{Making.make_refusal, Making.IsRefused, View.monitor_of};
ghost use Rattle.monk_history.specs.{Limits.most_lines, Meaning.Legal.IsLegal};
ghost use Rattle.monk_world.specs.{Telling.IsLed, WorldViews.state_of_view, Shown.is_granted, Records.IsRecordedBy};
ghost use Rattle.monk_world.specs.{Records.IsTakenBy, Records.KeepsVersion, Runs.IsWellLed, Runs.opening_state};
ghost use Rattle.monk_world.specs.StepTable.{IsStep, IsDone, refusal, left_for, may_be_told};

use crate::answer::Answer;
use crate::command::Command;
use crate::entry::record_entry;
use crate::home::Home;
use crate::place::Place;
use crate::play::PlayLines;
use crate::telling::{is_in_range, is_offered, left_for, may_be_told};
use crate::words::WorldWords;
use monk_floor::{Floor, MakeFault};
use monk_history::{Event, Next};
use monk_kinds::{Kind, Pick, rules_of};
use monk_object::{Guarded, Op};
use std::alloc::Global;
use std::marker::Model;

/// A monitor of kind `K` over an object `T` as words, places and one floor. Its seats change it by atomic steps, in
/// the order in which the commands come.
///
/// Contracts see a world as its words, where each seat is, and the floor's opening state, numbers and history. Each
/// of its states is sound: the right to be active is in exactly one place, and the history is legal.
#[derive(Drop)]
pub struct World<K: Kind, T: Guarded> {
    words: WorldWords,
    conds: u8,
    floor: Floor<K, T>,
}

impl<K: Kind, T: Guarded> Model for World<K, T> {
    ghost use Rattle.monk_world.specs.Kept.{IsKept};
    ghost use Rattle.monk_world.specs.WorldViews.{WorldView, view_in, state_of_view};

    ghost Value = { WorldView };

    ghost view = { λ w. view_in w.words w.floor };

    ghost invariant = { λ w. IsKept K.rules T.meaning w.words.seats w.conds (state_of_view (view_in w.words w.floor)) };
}

impl<K: Kind, T: Guarded> World<K, T> {
    /// Makes a world over an object, before any step. It has 1 to 32 seats, at most 8 condition variables, and 2 to
    /// 2^20 events for each seat.
    ///
    /// Returns the first fault that applies, lack of memory last, and then drops the object. Takes memory for
    /// `seats * budget` events, all queues and all words at once. No later call takes any.
    pub fn make(
        alloc: Global,
        object: T,
        seats: u8,
        conds: u8,
        budget: u32,
    ) -> Result<World<K, T>, MakeFault>
        ensures made { IfOk result
            (λ w. (make_refusal seats conds budget ≡ None)
            × (state_of_view w ≡ opening_state (T.state object) seats conds budget)) }
        ensures refused { IfErr result (λ e. IsRefused seats conds budget e) }
    {
        let floor = Floor::make(alloc, object, seats, conds, budget)?;
        let words = WorldWords::make(alloc, seats)?;
        Ok(World {
            words,
            conds,
            floor,
        })
    }

    /// Returns the history, which is always legal.
    pub fn history(&self) -> &[Event]
        ensures history { result.now ≡ self.now.floor.history }
        ensures legal { IsLegal (monitor_of K.rules T.meaning self.now.floor) self.now.floor.history }
        // It is no longer than a text may be.
        ensures few { length self.now.floor.history ≤ most_lines }
        // The right is in one place, and a seat is active if, and only if, it owns the history's turn.
        ensures well_led { IsWellLed K.rules T.meaning (state_of_view self.now) }
    {
        self.floor.history()
    }

    /// Returns how many seats there are.
    pub fn seats(&self) -> u8
        ensures { result ≡ (state_of_view self.now).floor.seats }
    {
        self.words.seats
    }

    /// Returns how many tickets were drawn.
    pub fn drawn(&self) -> u32
        ensures { result ≡ (state_of_view self.now).world.drawn }
    {
        self.words.drawn
    }

    /// Returns how many tickets are not passed on, with the one in use: 0 if the monitor is free.
    pub fn unpassed(&self) -> u32
        ensures { result ≡ (state_of_view self.now).world.unpassed }
    {
        self.words.unpassed
    }

    /// Returns where a seat is, or `Idle` if there is no such seat.
    pub fn place(&self, seat: u8) -> Place
        ensures { result ≡ (state_of_view self.now).world.place seat }
    {
        if seat < self.words.seats {
            self.words.place(seat)
        } else {
            Place::Idle
        }
    }

    /// Whether a seat's grant is there: in the place of its ticket or, if the seat is inside, in its own place.
    pub fn is_granted(&self, seat: u8) -> bool
        ensures { result ≡ is_granted (state_of_view self.now) seat }
    {
        if seat >= self.words.seats {
            return false;
        }
        match self.words.place(seat) {
            Place::Ticket(ticket) => self.words.is_ticket_granted(ticket),
            Place::Inner => self.words.is_called(seat),
            _ => false,
        }
    }

    /// Carries out the command for the seat. If it can't, it returns the first refusal that applies, and nothing has
    /// changed. `Range`: the seat, condition, predicate or code is out of range. `NoCall`: the kind has no such call.
    /// `NotNow`: the seat is at another place. `Tired`: the seat has too few events left. An arrival, an act and a
    /// signal to all need 2; a wait, a signal, an until and a signal followed by a wait need 3. A leave and a
    /// signal-leave always have theirs.
    ///
    /// Takes no memory. Costs what the floor's call costs, otherwise constant time.
    pub fn step(&mut self, seat: u8, command: Command) -> Answer
        ensures by_table { IsStep K.rules T.meaning (state_of_view self.old) seat command result
            (state_of_view self.new) }
        // The history grows by at most one event, the seat's own, and the right is in one place as before.
        ensures taken { IsTakenBy K.rules T.meaning (state_of_view self.old) seat command result
            (state_of_view self.new) }
    {
        let _ = &self.words; // from here on it is known to be sound
        self.tell(seat, command)
    }

    /// Carries out these commands in order, and goes on after a refusal.
    pub fn run(&mut self, commands: &[(u8, Command)])
        ensures led { IsLed K.rules T.meaning (state_of_view self.old) commands.now (state_of_view self.new) }
        // Each seat's events are those that its own commands appended, each once, and tickets enter in their order.
        ensures recorded { IsRecordedBy K.rules T.meaning (state_of_view self.old) commands.now
            (state_of_view self.new) }
        // A version of the text that has all the commands has all the events that they append.
        ensures versions { KeepsVersion (state_of_view self.old) commands.now (state_of_view self.new) }
        ensures well_led { IsWellLed K.rules T.meaning (state_of_view self.new) }
    {
        let _ = &self.words; // from here on it is known to be sound
        for (seat, command) in commands {
            self.step(*seat, *command);
        }
    }

    /// Carries out the commands that are left of a play's text, in order, as [`World::run`] does for a list.
    ///
    /// It makes one pass over the bytes, makes no list of commands, and takes no memory.
    pub fn run_lines(&mut self, play: PlayLines<'_>)
        ensures led { IsLed K.rules T.meaning (state_of_view self.old) play.entry.2 (state_of_view self.new) }
        ensures recorded { IsRecordedBy K.rules T.meaning (state_of_view self.old) play.entry.2
            (state_of_view self.new) }
        ensures versions { KeepsVersion (state_of_view self.old) play.entry.2 (state_of_view self.new) }
        ensures well_led { IsWellLed K.rules T.meaning (state_of_view self.new) }
    {
        let _ = &self.words; // from here on it is known to be sound
        let mut play = play;
        while let Some(told) = play.next() {
            self.step(told.0, told.1);
        }
    }

    /// Returns the first refusal that applies, or what the command comes to.
    fn tell(&mut self, seat: u8, command: Command) -> Answer
        ensures { IsStep K.rules T.meaning (state_of_view self.old) seat command result (state_of_view self.new) }
    {
        if let Some(refused) = self.refusal(seat, command) {
            return refused;
        }
        match command {
            Command::Arrive => self.arrive(seat),
            Command::Look => self.look(seat),
            Command::Out => self.floor_out(seat),
            Command::Peek => self.peek(seat),
            Command::Drop => self.drop_ticket(seat),
            Command::Grant => self.grant(seat),
            Command::Act(op) => self.act(seat, op),
            Command::Leave(pick) => self.leave(seat, pick),
            Command::Wait(cond, pick) => self.wait(seat, cond, pick),
            Command::Signal(cond, pick) => self.signal(seat, cond, pick),
            Command::SignalLeave(cond, pick) => self.signal_leave(seat, cond, pick),
            Command::Until(pred, pick) => self.until(seat, pred, pick),
            Command::SignalAll(cond) => self.signal_all(seat, cond),
            Command::SignalWait(cond, wait_cond, pick) => {
                self.signal_wait(seat, cond, wait_cond, pick)
            }
        }
    }

    /// Returns the first refusal that applies.
    fn refusal(&self, seat: u8, command: Command) -> Option<Answer>
        ensures { result ≡ refusal K.rules T.meaning (state_of_view self.now) seat command }
    {
        if seat >= self.words.seats {
            return Some(Answer::Range);
        }
        if !is_in_range(command, self.conds, T::CODES, T::PREDICATES) {
            return Some(Answer::Range);
        }
        if !is_offered(rules_of::<K>().mode, command) {
            return Some(Answer::NoCall);
        }
        if !may_be_told(self.words.place(seat), command) {
            return Some(Answer::NotNow);
        }
        if self.floor.left(seat) < left_for(command) {
            return Some(Answer::Tired);
        }
        None
    }

    /// Draws a ticket.
    fn arrive(&mut self, seat: u8) -> Answer
        requires { refusal K.rules T.meaning (state_of_view self.old) seat Command.Arrive ≡ None }
        ensures { IsDone K.rules T.meaning (state_of_view self.old) seat ((state_of_view self.old).world.place seat)
            Command.Arrive result (state_of_view self.new) }
    {
        self.words.arrive(seat)
    }

    /// Looks whether the right was handed over.
    fn look(&mut self, seat: u8) -> Answer
        requires { refusal K.rules T.meaning (state_of_view self.old) seat Command.Look ≡ None }
        ensures { IsDone K.rules T.meaning (state_of_view self.old) seat ((state_of_view self.old).world.place seat)
            Command.Look result (state_of_view self.new) }
    {
        match self.words.place(seat) {
            Place::Ticket(ticket) => self.words.ticket_look(seat, ticket),
            Place::Inner => self.words.seat_look(seat),
            // The refusal lets no other place through.
            _ => unreachable!(),
        }
    }

    /// Takes the floor, which records the enter or the resume.
    fn floor_out(&mut self, seat: u8) -> Answer
        requires { refusal K.rules T.meaning (state_of_view self.old) seat Command.Out ≡ None }
        ensures { IsDone K.rules T.meaning (state_of_view self.old) seat ((state_of_view self.old).world.place seat)
            Command.Out result (state_of_view self.new) }
    {
        match self.words.place(seat) {
            Place::Due(source) => {
                record_entry(&mut self.floor, seat, source);
                self.words.floor_out(seat, source)
            }
            // The refusal lets no other place through.
            _ => unreachable!(),
        }
    }

    /// Looks how many tickets are not passed on.
    fn peek(&mut self, seat: u8) -> Answer
        requires { refusal K.rules T.meaning (state_of_view self.old) seat Command.Peek ≡ None }
        ensures { IsDone K.rules T.meaning (state_of_view self.old) seat ((state_of_view self.old).world.place seat)
            Command.Peek result (state_of_view self.new) }
    {
        match self.words.place(seat) {
            Place::Active(_) => self.words.peek(seat),
            _ => Answer::Found(self.words.unpassed),
        }
    }

    /// Takes the seat off the ticket word.
    fn drop_ticket(&mut self, seat: u8) -> Answer
        requires { refusal K.rules T.meaning (state_of_view self.old) seat Command.Drop ≡ None }
        ensures { IsDone K.rules T.meaning (state_of_view self.old) seat ((state_of_view self.old).world.place seat)
            Command.Drop result (state_of_view self.new) }
    {
        match self.words.place(seat) {
            Place::Back(_, home) => self.words.drop_ticket(seat, home),
            // The refusal lets no other place through.
            _ => unreachable!(),
        }
    }

    /// Grants the right to the ticket or the seat that is next.
    fn grant(&mut self, seat: u8) -> Answer
        requires { refusal K.rules T.meaning (state_of_view self.old) seat Command.Grant ≡ None }
        ensures { IsDone K.rules T.meaning (state_of_view self.old) seat ((state_of_view self.old).world.place seat)
            Command.Grant result (state_of_view self.new) }
    {
        match self.words.place(seat) {
            Place::Passing(ticket, home) => self.words.ticket_grant(seat, ticket, home),
            Place::Back(Next::Waiter(called), home) => self.words.seat_grant(seat, called, home),
            Place::Back(Next::Signaller(called), home) => self.words.seat_grant(seat, called, home),
            Place::Back(Next::Until(called), home) => self.words.seat_grant(seat, called, home),
            // The refusal lets no other place through.
            _ => unreachable!(),
        }
    }

    /// Carries an operation out on the object.
    fn act(&mut self, seat: u8, op: Op) -> Answer
        requires { refusal K.rules T.meaning (state_of_view self.old) seat (Command.Act op) ≡ None }
        ensures { IsDone K.rules T.meaning (state_of_view self.old) seat ((state_of_view self.old).world.place seat)
            (Command.Act op) result (state_of_view self.new) }
    {
        Answer::Reply(self.floor.act(seat, op))
    }

    /// Leaves the monitor.
    fn leave(&mut self, seat: u8, pick: Pick) -> Answer
        requires { refusal K.rules T.meaning (state_of_view self.old) seat (Command.Leave pick) ≡ None }
        ensures { IsDone K.rules T.meaning (state_of_view self.old) seat ((state_of_view self.old).world.place seat)
            (Command.Leave pick) result (state_of_view self.new) }
    {
        let known = self.words.knows(seat);
        let next = self.floor.plain_leave(seat, pick, known);
        self.words.floor_in(seat, next, Home::Idle)
    }

    /// Waits on a condition.
    fn wait(&mut self, seat: u8, cond: u8, pick: Pick) -> Answer
        requires { refusal K.rules T.meaning (state_of_view self.old) seat (Command.Wait cond pick) ≡ None }
        ensures { IsDone K.rules T.meaning (state_of_view self.old) seat ((state_of_view self.old).world.place seat)
            (Command.Wait cond pick) result (state_of_view self.new) }
    {
        let known = self.words.knows(seat);
        let next = self.floor.plain_wait(seat, cond, pick, known);
        self.words.floor_in(seat, next, Home::Inner)
    }

    /// Signals a condition.
    fn signal(&mut self, seat: u8, cond: u8, pick: Pick) -> Answer
        requires { refusal K.rules T.meaning (state_of_view self.old) seat (Command.Signal cond pick) ≡ None }
        ensures { IsDone K.rules T.meaning (state_of_view self.old) seat ((state_of_view self.old).world.place seat)
            (Command.Signal cond pick) result (state_of_view self.new) }
    {
        let known = self.words.knows(seat);
        let next = self.floor.plain_signal(seat, cond, pick, known);
        self.words.floor_in(seat, next, Home::Inner)
    }

    /// Signals a condition and leaves the monitor.
    fn signal_leave(&mut self, seat: u8, cond: u8, pick: Pick) -> Answer
        requires { refusal K.rules T.meaning (state_of_view self.old) seat (Command.SignalLeave cond pick) ≡ None }
        ensures { IsDone K.rules T.meaning (state_of_view self.old) seat ((state_of_view self.old).world.place seat)
            (Command.SignalLeave cond pick) result (state_of_view self.new) }
    {
        let known = self.words.knows(seat);
        let next = self.floor.plain_signal_leave(seat, cond, pick, known);
        self.words.floor_in(seat, next, Home::Idle)
    }

    /// Waits until a predicate holds.
    fn until(&mut self, seat: u8, pred: u8, pick: Pick) -> Answer
        requires { refusal K.rules T.meaning (state_of_view self.old) seat (Command.Until pred pick) ≡ None }
        ensures { IsDone K.rules T.meaning (state_of_view self.old) seat ((state_of_view self.old).world.place seat)
            (Command.Until pred pick) result (state_of_view self.new) }
    {
        let known = self.words.knows(seat);
        let next = self.floor.plain_until(seat, pred, pick, known);
        self.words.floor_in(seat, next, Home::Inner)
    }

    /// Signals all who wait on a condition.
    fn signal_all(&mut self, seat: u8, cond: u8) -> Answer
        requires { refusal K.rules T.meaning (state_of_view self.old) seat (Command.SignalAll cond) ≡ None }
        ensures { IsDone K.rules T.meaning (state_of_view self.old) seat ((state_of_view self.old).world.place seat)
            (Command.SignalAll cond) result (state_of_view self.new) }
    {
        Answer::Woke(self.floor.plain_signal_all(seat, cond))
    }

    /// Signals a condition and then waits on one.
    fn signal_wait(&mut self, seat: u8, cond: u8, wait_cond: u8, pick: Pick) -> Answer
        requires { refusal K.rules T.meaning (state_of_view self.old) seat
            (Command.SignalWait cond wait_cond pick) ≡ None }
        ensures { IsDone K.rules T.meaning (state_of_view self.old) seat ((state_of_view self.old).world.place seat)
            (Command.SignalWait cond wait_cond pick) result (state_of_view self.new) }
    {
        let known = self.words.knows(seat);
        let next = self
            .floor
            .plain_signal_wait(seat, cond, wait_cond, pick, known);
        self.words.floor_in(seat, next, Home::Inner)
    }
}
