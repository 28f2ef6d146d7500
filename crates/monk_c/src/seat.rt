//! A seat of a hall as one value: what a handle of a C program stands for.
ghost use Rattle.std.specs.Prelude.{◌≡◌, ◌+◌, true, length, List, IsTrue};
ghost use Rattle.std.specs.Arc.{arc_value};
ghost use Rattle.monk_kinds.specs.declared.mode.Pick.TheVariants as pick;
ghost use Rattle.monk_object.specs.declared.name.ObjectName.TheVariants as object;
ghost use Rattle.monk_object.specs.Names.{opening_named};
ghost use Rattle.monk_history.specs.{Text.is_writable, declared.event.Event.Event};
ghost use Rattle.monk_c.specs.{Answers.place_number, Coming.IfComes, Stands.IsAtHome, Stands.me_of, Tokens.at_of};
ghost use Rattle.monk_c.specs.{Taken.Answers, Taken.IfRefused, Taken.IfTaken, Taken.IfUntold, SeatQuestions.word_of};
ghost use Rattle.monk_c.specs.Refusal.{IsReady, is_plain, refusal_of};
ghost use Rattle.monk_c.specs.Headings.{flags_made, heading_for};

use crate::call::Call;
use crate::refusal::Refusal;
use crate::reply::Reply;
use crate::room::Room;
use crate::token::SeatToken;
use crate::told::told;
use core::mem;
use monk_history::Header;
use monk_kinds::{ImmediateReturn, Kind, NonBlocking, Pick, rules_of};
use std::alloc::Global;
use std::marker::Model;
use std::sync::Arc;

/// A hall that its seats share.
pub type Shared<K> = Arc<Room<K>, Global>;

/// A seat with its token.
pub struct Seat<K: Kind> {
    room: Shared<K>,
    token: SeatToken<K>,
}

impl<K: Kind> Model for Seat<K> {
    ghost use Rattle.std.specs.Arc.{arc_value};
    ghost use Rattle.monk_c.specs.Stands.{SeatView, IsAtHome};
    ghost use Rattle.monk_c.specs.Tokens.{at_of};

    ghost Value = { SeatView };

    ghost view = { λ s. record { room = arc_value s.room; at = at_of s.token } };

    ghost invariant = { λ s. IsAtHome (arc_value s.room) (at_of s.token) };
}

impl<K: Kind> Seat<K> {
    /// Returns the seat of this hall that has the token.
    #[inline(always)]
    pub fn new(room: Shared<K>, token: SeatToken<K>) -> Seat<K>
        requires { IsAtHome (arc_value room) (at_of token) }
        ensures { result ≡ record { room = arc_value room; at = at_of token } }
    {
        Seat { room, token }
    }

    /// Returns its hall and its token.
    #[inline(always)]
    pub fn into_parts(self) -> (Shared<K>, SeatToken<K>)
        ensures home { IsAtHome (arc_value result.0) (at_of result.1) }
        ensures parts { self ≡ record { room = arc_value result.0; at = at_of result.1 } }
    {
        let Seat { room, token } = self;
        (room, token)
    }

    /// Returns its hall.
    pub fn room(&self) -> &Room<K>
        ensures { result.now ≡ self.now.room }
    {
        &self.room
    }

    /// Returns the header of its hall's history, in a version that has every event.
    pub fn header(&self) -> Header
        ensures header { result ≡ heading_for K.NAME self.now.room }
        ensures writable { (events : List Event) → IsTrue (is_writable result events) }
        ensures opening { self.now.room.house.setting.opening
            ≡ opening_named object.Flags (flags_made self.now.room.flags) }
    {
        self.room.header()
    }

    /// Returns its token.
    pub fn token(&self) -> &SeatToken<K>
        ensures token { at_of result.now ≡ self.now.at }
        ensures home { IsAtHome self.now.room self.now.at }
    {
        &self.token
    }

    /// Gives the seat up. A seat that is inside leaves, and nobody is told whom that let in. A seat that waits keeps
    /// its place, and it keeps the monitor once its turn comes.
    pub fn shut(self) {
        let Seat { room, token } = self;
        match token {
            SeatToken::Outside(_) => {}
            SeatToken::Waiting(parked) => parked.give_up(),
            SeatToken::Inside(active) => {
                let (_, granted) = active.leave_quietly(&room.hall, Pick::Waiter);
                told(granted);
            }
        }
    }

    /// Returns why the call is refused, if it is.
    #[inline(always)]
    fn refusal(&self, call: Call) -> Option<Refusal>
        ensures { result ≡ refusal_of K.rules.mode self.now call }
    {
        if !call.is_of(rules_of::<K>().mode) {
            return Some(Refusal::NotOfKind);
        }
        if !call.is_within(self.room.conds(), self.room.flags) {
            return Some(Refusal::Range);
        }
        if !self.token.is_from(call) {
            return Some(Refusal::NotNow);
        }
        if self.token.left() < call.wants() {
            return Some(Refusal::Spent);
        }
        None
    }

    /// Returns the number for C of where it is.
    pub fn place(&self) -> i32
        ensures { result ≡ place_number self.now.at }
    {
        self.token.place()
    }

    /// Returns how many events it has left.
    pub fn left(&self) -> u32
        ensures { result + length (me_of self.now.at).mine ≡ (me_of self.now.at).setting.budget }
    {
        self.token.left()
    }

    /// Returns the word where its grant will come if it waits, or else 0.
    pub fn word(&self) -> usize
        ensures { result ≡ word_of self.now.at }
    {
        match &self.token {
            SeatToken::Waiting(parked) => parked.word(&self.room.hall),
            _ => 0,
        }
    }

    /// Carries out a call that is not refused.
    fn take(self, call: Call, wish: Pick) -> (Seat<K>, Reply)
        requires ready { IsReady K.rules.mode self call }
        requires plain { is_plain call ≡ true }
        ensures { Answers K.rules call wish self result.1.code result.1.granted result.0 }
    {
        match call {
            Call::Arrive => self.arrive(),
            Call::Poll => self.poll(),
            Call::Leave => self.leave(wish),
            Call::Wait(cond) => self.wait(cond, wish),
            Call::Signal(cond) => self.signal(cond, wish),
            Call::SignalLeave(cond) => self.signal_leave(cond, wish),
            Call::SetFlags(bits) => self.set_flags(bits),
            Call::WaitUntil(flag) => self.wait_until(flag, wish),
            // A plain call is neither.
            Call::Broadcast(_) | Call::SignalWait(_, _) => unreachable!(),
        }
    }

    /// Carries out a call, or refuses it.
    pub fn ask(&mut self, call: Call, wish: Pick) -> Reply
        requires { is_plain call ≡ true }
        ensures refused { IfRefused K.rules call self.old result.code self.new }
        ensures untold { IfUntold K.rules call self.old result.granted }
        ensures taken { IfTaken K.rules call wish self.old result.code result.granted self.new }
    {
        match self.refusal(call) {
            Some(refusal) => Reply::refused(refusal),
            None => mem::replace_with(
                self,
                (call, wish),
                |seat: Seat<K>, asked: (Call, Pick)|
                    requires { IsReady K.rules.mode seat asked.0 × (is_plain asked.0 ≡ true) }
                { seat.take(asked.0, asked.1) },
            ),
        }
    }
}

impl<K: Kind> Seat<K> {
    /// Comes to the monitor and goes in if it may, or is refused. It does what `ask` does for an arrival and then for
    /// a poll, but moves the seat only once.
    #[inline(always)]
    pub fn come(&mut self) -> i32
        ensures refused { IfRefused K.rules Call.Arrive self.old result self.new }
        ensures come { IfComes K.rules self.old result self.new }
    {
        match self.refusal(Call::Arrive) {
            Some(refusal) => refusal.number(),
            None => mem::replace_with(
                self,
                (),
                |seat: Seat<K>, _nothing: ()|
                    requires { IsReady K.rules.mode seat Call.Arrive }
                { seat.arrive_and_poll() },
            ),
        }
    }

    /// Leaves the monitor, or is refused. It does what `ask` does for this call, which is known when it is compiled.
    #[inline(always)]
    pub fn go(&mut self, wish: Pick) -> Reply
        ensures refused { IfRefused K.rules Call.Leave self.old result.code self.new }
        ensures untold { IfUntold K.rules Call.Leave self.old result.granted }
        ensures taken { IfTaken K.rules Call.Leave wish self.old result.code result.granted self.new }
    {
        match self.refusal(Call::Leave) {
            Some(refusal) => Reply::refused(refusal),
            None => mem::replace_with(
                self,
                wish,
                |seat: Seat<K>, wish: Pick|
                    requires { IsReady K.rules.mode seat Call.Leave }
                { seat.leave(wish) },
            ),
        }
    }
}

impl<K: NonBlocking> Seat<K> {
    /// Signals a condition to all who wait there, or refuses it.
    pub fn broadcast(&mut self, cond: u8) -> Reply
        ensures refused { IfRefused K.rules (Call.Broadcast cond) self.old result.code self.new }
        ensures untold { IfUntold K.rules (Call.Broadcast cond) self.old result.granted }
        ensures taken { IfTaken K.rules (Call.Broadcast cond) pick.Waiter self.old result.code result.granted self.new }
    {
        match self.refusal(Call::Broadcast(cond)) {
            Some(refusal) => Reply::refused(refusal),
            None => mem::replace_with(
                self,
                cond,
                |seat: Seat<K>, cond: u8|
                    requires { IsReady K.rules.mode seat (Call.Broadcast cond) }
                { seat.signal_all(cond) },
            ),
        }
    }
}

impl<K: ImmediateReturn> Seat<K> {
    /// Signals the first condition and waits on the second, or refuses it.
    pub fn signal_wait(&mut self, cond: u8, wait_cond: u8, wish: Pick) -> Reply
        ensures refused { IfRefused K.rules (Call.SignalWait cond wait_cond) self.old result.code self.new }
        ensures untold { IfUntold K.rules (Call.SignalWait cond wait_cond) self.old result.granted }
        ensures taken { IfTaken K.rules
            (Call.SignalWait cond wait_cond) wish self.old result.code result.granted self.new }
    {
        match self.refusal(Call::SignalWait(cond, wait_cond)) {
            Some(refusal) => Reply::refused(refusal),
            None => mem::replace_with(
                self,
                (cond, wait_cond, wish),
                |seat: Seat<K>, asked: (u8, u8, Pick)|
                    requires { IsReady K.rules.mode seat (Call.SignalWait asked.0 asked.1) }
                { seat.signal_and_wait(asked.0, asked.1, asked.2) },
            ),
        }
    }
}
