//! A seat of a monitor of any kind.
ghost use Rattle.std.specs.Prelude.{◌≡◌, true, IfOk, IfErr};
ghost use Rattle.monk_kinds.specs.declared.mode.Pick.TheVariants as pick;
ghost use Rattle.monk_c.specs.{Coming.IfComesAt, Looking.IsCountOf, Refusal.is_plain, Texts.HasTextBooked};
ghost use Rattle.monk_c.specs.{Texts.IsTextRefusalOf, Handles.IfRefusedAt, Handles.IfTakenAt, Handles.IfUntoldAt};
ghost use Rattle.monk_c.specs.{Handles.booked, SeatQuestions.IsLeft, SeatQuestions.place_at, SeatQuestions.word_at};

use crate::call::Call;
use crate::refusal::Refusal;
use crate::reply::Reply;
use crate::seat::Seat;
use monk_kinds::{Npb, Npir, Npis, Npnb, Npqb, Pb, Pick, Pir, Pis, Pnb, Pqb};
use std::alloc::Global;

/// What a handle has: nothing, or a seat of a monitor of a kind.
pub enum AnySeat {
    /// No seat.
    Empty,
    Pb(Seat<Pb>),
    Npb(Seat<Npb>),
    Pnb(Seat<Pnb>),
    Npnb(Seat<Npnb>),
    Pqb(Seat<Pqb>),
    Npqb(Seat<Npqb>),
    Pir(Seat<Pir>),
    Npir(Seat<Npir>),
    Pis(Seat<Pis>),
    Npis(Seat<Npis>),
}

impl Drop for AnySeat {
    fn drop(self) {
        match self {
            AnySeat::Empty => {}
            AnySeat::Pb(seat) => seat.shut(),
            AnySeat::Npb(seat) => seat.shut(),
            AnySeat::Pnb(seat) => seat.shut(),
            AnySeat::Npnb(seat) => seat.shut(),
            AnySeat::Pqb(seat) => seat.shut(),
            AnySeat::Npqb(seat) => seat.shut(),
            AnySeat::Pir(seat) => seat.shut(),
            AnySeat::Npir(seat) => seat.shut(),
            AnySeat::Pis(seat) => seat.shut(),
            AnySeat::Npis(seat) => seat.shut(),
        }
    }
}

impl AnySeat {
    /// Carries out a call, or refuses it.
    pub fn ask(&mut self, call: Call, wish: Pick) -> Reply
        requires { is_plain call ≡ true }
        ensures refused { IfRefusedAt call self.old result.code self.new }
        ensures untold { IfUntoldAt call self.old result.granted }
        ensures taken { IfTakenAt call wish self.old result.code result.granted self.new }
    {
        match self {
            AnySeat::Empty => Reply::refused(Refusal::Closed),
            AnySeat::Pb(seat) => seat.ask(call, wish),
            AnySeat::Npb(seat) => seat.ask(call, wish),
            AnySeat::Pnb(seat) => seat.ask(call, wish),
            AnySeat::Npnb(seat) => seat.ask(call, wish),
            AnySeat::Pqb(seat) => seat.ask(call, wish),
            AnySeat::Npqb(seat) => seat.ask(call, wish),
            AnySeat::Pir(seat) => seat.ask(call, wish),
            AnySeat::Npir(seat) => seat.ask(call, wish),
            AnySeat::Pis(seat) => seat.ask(call, wish),
            AnySeat::Npis(seat) => seat.ask(call, wish),
        }
    }

    /// Comes to the monitor and goes in if it may, or is refused.
    #[inline(always)]
    pub fn come(&mut self) -> i32
        ensures refused { IfRefusedAt Call.Arrive self.old result self.new }
        ensures come { IfComesAt self.old result self.new }
    {
        match self {
            AnySeat::Empty => Refusal::Closed.number(),
            AnySeat::Pb(seat) => seat.come(),
            AnySeat::Npb(seat) => seat.come(),
            AnySeat::Pnb(seat) => seat.come(),
            AnySeat::Npnb(seat) => seat.come(),
            AnySeat::Pqb(seat) => seat.come(),
            AnySeat::Npqb(seat) => seat.come(),
            AnySeat::Pir(seat) => seat.come(),
            AnySeat::Npir(seat) => seat.come(),
            AnySeat::Pis(seat) => seat.come(),
            AnySeat::Npis(seat) => seat.come(),
        }
    }

    /// Leaves the monitor, or is refused.
    #[inline(always)]
    pub fn go(&mut self, wish: Pick) -> Reply
        ensures refused { IfRefusedAt Call.Leave self.old result.code self.new }
        ensures untold { IfUntoldAt Call.Leave self.old result.granted }
        ensures taken { IfTakenAt Call.Leave wish self.old result.code result.granted self.new }
    {
        match self {
            AnySeat::Empty => Reply::refused(Refusal::Closed),
            AnySeat::Pb(seat) => seat.go(wish),
            AnySeat::Npb(seat) => seat.go(wish),
            AnySeat::Pnb(seat) => seat.go(wish),
            AnySeat::Npnb(seat) => seat.go(wish),
            AnySeat::Pqb(seat) => seat.go(wish),
            AnySeat::Npqb(seat) => seat.go(wish),
            AnySeat::Pir(seat) => seat.go(wish),
            AnySeat::Npir(seat) => seat.go(wish),
            AnySeat::Pis(seat) => seat.go(wish),
            AnySeat::Npis(seat) => seat.go(wish),
        }
    }

    /// Signals a condition to all who wait there, or refuses it.
    pub fn broadcast(&mut self, cond: u8) -> Reply
        ensures refused { IfRefusedAt (Call.Broadcast cond) self.old result.code self.new }
        ensures untold { IfUntoldAt (Call.Broadcast cond) self.old result.granted }
        ensures taken { IfTakenAt (Call.Broadcast cond) pick.Waiter self.old result.code result.granted self.new }
    {
        match self {
            AnySeat::Empty => Reply::refused(Refusal::Closed),
            AnySeat::Pnb(seat) => seat.broadcast(cond),
            AnySeat::Npnb(seat) => seat.broadcast(cond),
            AnySeat::Pb(_)
            | AnySeat::Npb(_)
            | AnySeat::Pqb(_)
            | AnySeat::Npqb(_)
            | AnySeat::Pir(_)
            | AnySeat::Npir(_)
            | AnySeat::Pis(_)
            | AnySeat::Npis(_) => Reply::refused(Refusal::NotOfKind),
        }
    }

    /// Signals the first condition and waits on the second, or refuses it.
    pub fn signal_wait(&mut self, cond: u8, wait_cond: u8, wish: Pick) -> Reply
        ensures refused { IfRefusedAt (Call.SignalWait cond wait_cond) self.old result.code self.new }
        ensures untold { IfUntoldAt (Call.SignalWait cond wait_cond) self.old result.granted }
        ensures taken { IfTakenAt (Call.SignalWait cond wait_cond) wish self.old result.code result.granted self.new }
    {
        match self {
            AnySeat::Empty => Reply::refused(Refusal::Closed),
            AnySeat::Pir(seat) => seat.signal_wait(cond, wait_cond, wish),
            AnySeat::Npir(seat) => seat.signal_wait(cond, wait_cond, wish),
            AnySeat::Pb(_)
            | AnySeat::Npb(_)
            | AnySeat::Pnb(_)
            | AnySeat::Npnb(_)
            | AnySeat::Pqb(_)
            | AnySeat::Npqb(_)
            | AnySeat::Pis(_)
            | AnySeat::Npis(_) => Reply::refused(Refusal::NotOfKind),
        }
    }

    /// Returns the number for C of where it is, or 0 if there is no seat.
    pub fn place(&self) -> i32
        ensures { result ≡ place_at (booked self.now) }
    {
        match self {
            AnySeat::Empty => 0,
            AnySeat::Pb(seat) => seat.place(),
            AnySeat::Npb(seat) => seat.place(),
            AnySeat::Pnb(seat) => seat.place(),
            AnySeat::Npnb(seat) => seat.place(),
            AnySeat::Pqb(seat) => seat.place(),
            AnySeat::Npqb(seat) => seat.place(),
            AnySeat::Pir(seat) => seat.place(),
            AnySeat::Npir(seat) => seat.place(),
            AnySeat::Pis(seat) => seat.place(),
            AnySeat::Npis(seat) => seat.place(),
        }
    }

    /// Returns how many events it has left, or 0 if there is no seat.
    pub fn left(&self) -> u32
        ensures { IsLeft (booked self.now) result }
    {
        match self {
            AnySeat::Empty => 0,
            AnySeat::Pb(seat) => seat.left(),
            AnySeat::Npb(seat) => seat.left(),
            AnySeat::Pnb(seat) => seat.left(),
            AnySeat::Npnb(seat) => seat.left(),
            AnySeat::Pqb(seat) => seat.left(),
            AnySeat::Npqb(seat) => seat.left(),
            AnySeat::Pir(seat) => seat.left(),
            AnySeat::Npir(seat) => seat.left(),
            AnySeat::Pis(seat) => seat.left(),
            AnySeat::Npis(seat) => seat.left(),
        }
    }

    /// Returns the word where its grant will come if it waits, or else 0.
    pub fn word(&self) -> usize
        ensures { result ≡ word_at (booked self.now) }
    {
        match self {
            AnySeat::Empty => 0,
            AnySeat::Pb(seat) => seat.word(),
            AnySeat::Npb(seat) => seat.word(),
            AnySeat::Pnb(seat) => seat.word(),
            AnySeat::Npnb(seat) => seat.word(),
            AnySeat::Pqb(seat) => seat.word(),
            AnySeat::Npqb(seat) => seat.word(),
            AnySeat::Pir(seat) => seat.word(),
            AnySeat::Npir(seat) => seat.word(),
            AnySeat::Pis(seat) => seat.word(),
            AnySeat::Npis(seat) => seat.word(),
        }
    }

    /// Returns how many wait on a condition, or a number below 0 that says why that isn't known.
    pub fn waiting(&self, cond: u8) -> i64
        ensures { IsCountOf (booked self.now) cond result }
    {
        match self {
            AnySeat::Empty => i64::from(Refusal::Closed.number()),
            AnySeat::Pb(seat) => seat.waiting(cond),
            AnySeat::Npb(seat) => seat.waiting(cond),
            AnySeat::Pnb(seat) => seat.waiting(cond),
            AnySeat::Npnb(seat) => seat.waiting(cond),
            AnySeat::Pqb(seat) => seat.waiting(cond),
            AnySeat::Npqb(seat) => seat.waiting(cond),
            AnySeat::Pir(seat) => seat.waiting(cond),
            AnySeat::Npir(seat) => seat.waiting(cond),
            AnySeat::Pis(seat) => seat.waiting(cond),
            AnySeat::Npis(seat) => seat.waiting(cond),
        }
    }

    /// Returns the text of the history up to now, or why there is none.
    pub fn text(&self, alloc: Global) -> Result<Vec<u8>, Refusal>
        ensures text { IfOk result (λ v. HasTextBooked (booked self.now) v.items) }
        ensures refused { IfErr result (λ f. IsTextRefusalOf (booked self.now) f) }
    {
        match self {
            AnySeat::Empty => Err(Refusal::Closed),
            AnySeat::Pb(seat) => seat.text(alloc),
            AnySeat::Npb(seat) => seat.text(alloc),
            AnySeat::Pnb(seat) => seat.text(alloc),
            AnySeat::Npnb(seat) => seat.text(alloc),
            AnySeat::Pqb(seat) => seat.text(alloc),
            AnySeat::Npqb(seat) => seat.text(alloc),
            AnySeat::Pir(seat) => seat.text(alloc),
            AnySeat::Npir(seat) => seat.text(alloc),
            AnySeat::Pis(seat) => seat.text(alloc),
            AnySeat::Npis(seat) => seat.text(alloc),
        }
    }
}
