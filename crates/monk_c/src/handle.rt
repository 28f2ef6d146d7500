//! What a C program has for a seat.
ghost use Rattle.std.specs.Prelude.{◌≡◌, true, IfOk, IfErr};
ghost use Rattle.monk_kinds.specs.declared.mode.Pick.TheVariants as pick;
ghost use Rattle.monk_c.specs.{Coming.IfComesAt, Looking.IsCountOf, Refusal.is_plain, Texts.HasTextBooked};
ghost use Rattle.monk_c.specs.{Texts.IsTextRefusalOf, declared.any_seat.AnySeat.AnySeat as Held};
ghost use Rattle.monk_c.specs.Handles.{IfRefusedAt, IfTakenAt, IfUntoldAt, booked};
ghost use Rattle.monk_c.specs.SeatQuestions.{IsLeft, place_at, word_at};

use crate::any_seat::AnySeat;
use crate::call::Call;
use crate::refusal::Refusal;
use crate::reply::Reply;
use monk_kinds::Pick;
use std::alloc::Global;
use std::marker::Model;

/// A handle of a C program: a pointer to memory of the program's that holds an `AnySeat`.
#[repr(C)]
pub struct MonkSeat {
    pub at: *mut u8,
    pub ghost has: { Held },
}

impl Model for MonkSeat {
    ghost use Rattle.std.specs.Borrow.{full_share};
    ghost use Rattle.std.specs.Ptr.{lies_at};
    ghost use Rattle.monk_c.specs.contracts.any_seat.AnySeat.{the_row as seat_row};

    ghost also_owns = { λ s. lies_at seat_row full_share s.at s.has };
}

// C passes handles from thread to thread (`crossing`).
unsafe impl Send for MonkSeat {}

impl MonkSeat {
    /// Puts another seat in its place, and gives up what was there.
    pub fn put(&mut self, next: AnySeat)
        ensures { self.new ≡ record self.old { has = next } }
    {
        *self.held() = next;
    }

    /// Carries out a call, or refuses it.
    pub fn ask(&mut self, call: Call, wish: Pick) -> Reply
        requires { is_plain call ≡ true }
        ensures same { self.new ≡ record self.old { has = self.new.has } }
        ensures refused { IfRefusedAt call self.old.has result.code self.new.has }
        ensures untold { IfUntoldAt call self.old.has result.granted }
        ensures taken { IfTakenAt call wish self.old.has result.code result.granted self.new.has }
    {
        self.held().ask(call, wish)
    }

    /// Comes to the monitor, and goes in if it may. Returns the place where it is then, or why it can't come.
    ///
    /// Two exports call it. It isn't inlined into them, because the move of the seat is inlined here only if it has one
    /// caller, and otherwise an arrival takes more than twice the instructions.
    #[inline(never)]
    pub fn come(&mut self) -> i32
        ensures same { self.new ≡ record self.old { has = self.new.has } }
        ensures refused { IfRefusedAt Call.Arrive self.old.has result self.new.has }
        ensures come { IfComesAt self.old.has result self.new.has }
    {
        self.held().come()
    }

    /// Leaves the monitor, or is refused.
    #[inline(always)]
    pub fn go(&mut self, wish: Pick) -> Reply
        ensures same { self.new ≡ record self.old { has = self.new.has } }
        ensures refused { IfRefusedAt Call.Leave self.old.has result.code self.new.has }
        ensures untold { IfUntoldAt Call.Leave self.old.has result.granted }
        ensures taken { IfTakenAt Call.Leave wish self.old.has result.code result.granted self.new.has }
    {
        self.held().go(wish)
    }

    /// Signals a condition to all who wait there, or refuses it.
    pub fn broadcast(&mut self, cond: u8) -> Reply
        ensures same { self.new ≡ record self.old { has = self.new.has } }
        ensures refused { IfRefusedAt (Call.Broadcast cond) self.old.has result.code self.new.has }
        ensures untold { IfUntoldAt (Call.Broadcast cond) self.old.has result.granted }
        ensures taken { IfTakenAt (Call.Broadcast cond) pick.Waiter self.old.has result.code result.granted
            self.new.has }
    {
        self.held().broadcast(cond)
    }

    /// Signals the first condition and waits on the second, or refuses it.
    pub fn signal_wait(&mut self, cond: u8, wait_cond: u8, wish: Pick) -> Reply
        ensures same { self.new ≡ record self.old { has = self.new.has } }
        ensures refused { IfRefusedAt (Call.SignalWait cond wait_cond) self.old.has result.code self.new.has }
        ensures untold { IfUntoldAt (Call.SignalWait cond wait_cond) self.old.has result.granted }
        ensures taken { IfTakenAt (Call.SignalWait cond wait_cond) wish self.old.has result.code result.granted
            self.new.has }
    {
        self.held().signal_wait(cond, wait_cond, wish)
    }

    /// Returns the number for C of where it is.
    pub fn place(&mut self) -> i32
        ensures same { self.new ≡ self.old }
        ensures place { result ≡ place_at (booked self.old.has) }
    {
        self.held().place()
    }

    /// Returns how many events it has left.
    pub fn left(&mut self) -> u32
        ensures same { self.new ≡ self.old }
        ensures left { IsLeft (booked self.old.has) result }
    {
        self.held().left()
    }

    /// Returns the word where its grant will come, if it waits.
    pub fn word(&mut self) -> usize
        ensures same { self.new ≡ self.old }
        ensures word { result ≡ word_at (booked self.old.has) }
    {
        self.held().word()
    }

    /// Returns how many wait on a condition, or a number below 0 that says why that isn't known.
    pub fn waiting(&mut self, cond: u8) -> i64
        ensures same { self.new ≡ self.old }
        ensures count { IsCountOf (booked self.old.has) cond result }
    {
        self.held().waiting(cond)
    }

    /// Returns the text of the history up to now, or why there is none.
    pub fn text(&mut self, alloc: Global) -> Result<Vec<u8>, Refusal>
        ensures same { self.new ≡ self.old }
        ensures text { IfOk result (λ v. HasTextBooked (booked self.old.has) v.items) }
        ensures refused { IfErr result (λ f. IsTextRefusalOf (booked self.old.has) f) }
    {
        self.held().text(alloc)
    }
}
