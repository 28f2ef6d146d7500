//! A mutex and its condition variables, followed line by line.

ghost use Rattle.std.specs.Prelude.{◌≡◌, ◌⊎◌, ◌+◌, ◌<◌, ◌≤◌, ℕ, false, length, IfOk, MatchOption, MatchResult, Some, None, slice_index_or, slice_set};
ghost use Rattle.monk_object.specs.Object.{Object};
ghost use Rattle.monk_logs.specs.declared.text.line.LogLine.TheVariants as lines;
ghost use Rattle.monk_judge.specs.{Blamed.IsBlamed, Followed.places_below};
ghost use Rattle.monk_judge.specs.declared.place.Place.TheVariants.{Outside, Active, Waiting};
ghost use Rattle.monk_judge.specs.declared.wait_end.WaitEnd.{WaitEnd, TheVariants.Resumes};
ghost use Rattle.monk_judge.specs.declared.blame.Blame.TheVariants.{Range, NoLock};
ghost use Rattle.monk_judge.specs.Run.{MaySignal, moved, opening, setting, woken};
ghost use Rattle.monk_judge.specs.Counts.{is_asleep, passing, sleepers, sleepers_on, woken_ones};
ghost use Rattle.monk_judge.specs.Shown.{Does, IsEarliest, IsFirstBelow, ResumesNoLater, setting_of, shown, state_of};

mod following;
mod lacking;

use crate::blame::Blame;
use crate::place::{Place, mark_woken};
use crate::told::Told;
use crate::wait_end::WaitEnd;
use monk_logs::{LINE_SEATS, LogLine};
use monk_object::{Guarded, Op};
use std::alloc::{AllocError, Global};
use std::marker::Model;

/// A mutex and its condition variables in a run that tells the lines so far. No run of them has
/// fewer wake-ups that nobody sent.
#[derive(Drop)]
pub struct Judge<T: Guarded> {
    conds: u8,
    lock: Option<u8>,
    places: Vec<Place>,
    /// How the wait of each waiting seat ends.
    ends: Vec<WaitEnd>,
    object: T,
}

impl<T: Guarded> Model for Judge<T> {
    ghost use Rattle.std.specs.Prelude.{◌≡◌, ◌<◌, length};
    ghost use Rattle.monk_judge.specs.Shown.{Shown, shown};

    ghost Value = { Shown };

    ghost view = { λ j. shown j.conds j.lock j.places.items j.ends.items (T.state j.object) };

    ghost invariant = { λ j. (length j.ends.items ≡ length j.places.items) × (length j.places.items < 256) };
}

impl<T: Guarded> Judge<T> {
    /// Returns a judge before the first line: nobody is inside, and nobody has a line that says how a wait would end.
    /// `seats` and `conds` are those of the log's header, and may be any numbers; `object` is what the lock guards. A
    /// line of a seat or a condition beyond them is refused later.
    ///
    /// # Errors
    ///
    /// A request for memory was refused. It takes a few bytes for each seat.
    pub fn opening(alloc: Global, seats: u8, conds: u8, object: T) -> Result<Self, AllocError>
        ensures many { IfOk result (λ v. (length v.places ≡ seats) × (v.conds ≡ conds) × (v.lock ≡ None)
            × (v.data_now ≡ T.state object)) }
        ensures outside { IfOk result (λ v. (j : ℕ) → slice_index_or v.places j Outside ≡ Outside) }
        ensures ends { IfOk result (λ v. length v.ends ≡ length v.places) }
        ensures setting { IfOk result (λ v. setting_of v T.meaning ≡ setting seats conds T.meaning) }
        ensures state { IfOk result (λ v. state_of v ≡ opening (T.state object)) }
    {
        let places = vec![in alloc; Place::Outside; usize::from(seats)]?;
        let ends = vec![in alloc; WaitEnd::Never; usize::from(seats)]?;
        Ok(Judge {
            conds,
            lock: None,
            places,
            ends,
            object,
        })
    }

    /// Returns who holds the lock.
    pub fn lock(&self) -> Option<u8>
        ensures { result ≡ self.now.lock }
    {
        self.lock
    }

    /// Returns the object in its present state.
    pub fn object(&self) -> &T
        ensures { T.state result.now ≡ self.now.data_now }
    {
        &self.object
    }

    /// Returns how many threads sleep.
    pub fn asleep(&self) -> u8
        ensures { result ≡ sleepers (length self.now.places) (state_of self.now) }
    {
        let mut many = 0u8;
        for place in &self.places {
            if place.is_asleep() {
                many += 1;
            }
        }
        many
    }

    /// Returns for each seat that a line can name whether it sleeps.
    pub(crate) fn sleepers(&self) -> [bool; LINE_SEATS]
        ensures { (s : ℕ) → slice_index_or result s false ≡ is_asleep ((state_of self.now).place s) }
    {
        let mut asleep = [false; LINE_SEATS];
        for (seat, place) in self.places.iter().enumerate() {
            asleep[seat] = place.is_asleep();
        }
        asleep
    }

    /// Returns how many threads sleep on the condition.
    fn asleep_on(&self, cond: u8) -> u8
        ensures { result ≡ sleepers_on cond (length self.now.places) (state_of self.now) }
    {
        let mut many = 0u8;
        for place in &self.places {
            if place.waits_on(cond) {
                many += 1;
            }
        }
        many
    }

    /// Returns how many threads were woken and are not back.
    pub fn woken(&self) -> u8
        ensures { result ≡ woken_ones (length self.now.places) (state_of self.now) }
    {
        let mut many = 0u8;
        for place in &self.places {
            if place.is_woken() {
                many += 1;
            }
        }
        many
    }

    /// Returns where the seat is, or `None` if there is no such seat.
    pub fn place(&self, seat: u8) -> Option<Place>
        ensures { MatchOption result (length self.now.places ≤ seat)
            (λ p. (seat < length self.now.places) × (p ≡ slice_index_or self.now.places seat Outside)) }
    {
        let seat = usize::from(seat);
        if seat < self.places.len() {
            Some(self.places[seat])
        } else {
            None
        }
    }

    /// Returns where each seat is.
    pub fn places(&self) -> &[Place]
        ensures places { result.now ≡ self.now.places }
        ensures shown { result.now ≡ places_below (length self.now.places) (state_of self.now).place }
        ensures few { length result.now < 256 }
    {
        &self.places
    }

    /// Returns where the seat is. The reason is `Range` if the header has no such seat.
    fn at(&self, seat: u8) -> Result<Place, Blame>
        ensures { MatchResult result (λ p. (seat < length self.now.places)
            × (p ≡ slice_index_or self.now.places seat Outside))
            (λ e. (length self.now.places ≤ seat) × (e ≡ Range)) }
    {
        self.place(seat).ok_or(Blame::Range)
    }

    /// Moves the seat to the place.
    fn put(&mut self, seat: u8, place: Place)
        requires { seat < length self.old.places }
        ensures { self.new ≡ shown self.old.conds self.old.lock (slice_set self.old.places seat place) self.old.ends
            self.old.data_now }
    {
        self.places[usize::from(seat)] = place;
    }

    /// Takes the next line, with the silent steps that it shows, and returns what it told. `end` is how a wait of its
    /// seat there would end ([`look_ahead`](crate::look_ahead)): of several sleepers a signal wakes the one that comes
    /// back first. For another line than a wait it isn't used.
    ///
    /// # Errors
    ///
    /// Why no run tells the line here: the first reason that applies. Then nobody has moved. An act whose reply is
    /// another than the object's has been done, so the object may have changed: the judge takes no further line.
    ///
    /// # Cost
    ///
    /// A signal, and a line that takes the lock, look once at each seat. All others take constant time, and none takes
    /// memory.
    pub fn line(&mut self, line: LogLine, end: WaitEnd) -> Result<Told, Blame>
        ensures { Does T.meaning self.old self.new line end result }
    {
        match line {
            LogLine::Enter(seat) => self.enter(seat),
            LogLine::Resume(seat) => self.resume(seat),
            LogLine::Lapse(seat) => self.lapse(seat),
            LogLine::Leave(seat) => self.leave(seat),
            LogLine::Wait(seat, cond) => self.wait(seat, cond, end),
            LogLine::Signal(seat, cond) => self.signal(seat, cond),
            LogLine::Broadcast(seat, cond) => self.broadcast(seat, cond),
            LogLine::Until(..) => Err(Blame::Call),
            LogLine::Act(seat, op, reply) => self.act(seat, op, reply),
        }
    }

    #[tactic(auto, using(crate::proofs::Shows::state_set, crate::proofs::Shows::setting_set))]
    fn enter(&mut self, seat: u8) -> Result<Told, Blame>
        ensures { (e : WaitEnd) → Does T.meaning self.old self.new (lines.Enter seat) e result }
    {
        let place = self.at(seat)?;
        if self.lock.is_some() {
            return Err(Blame::Held);
        }
        if place != Place::Outside {
            return Err(Blame::Asleep);
        }
        let told = self.passing();
        self.take(seat);
        Ok(told)
    }

    /// Returns what a line tells if a thread that no signal woke takes the lock with it.
    fn passing(&self) -> Told
        ensures { result ≡ passing (woken_ones (length self.now.places) (state_of self.now)) }
    {
        if self.woken() > 0 {
            Told::Passed
        } else {
            Told::Plain
        }
    }

    /// Gives the seat the lock.
    fn take(&mut self, seat: u8)
        requires { seat < length self.old.places }
        ensures { self.new ≡ shown self.old.conds (Some seat) (slice_set self.old.places seat Active) self.old.ends
            self.old.data_now }
    {
        self.lock = Some(seat);
        self.put(seat, Place::Active);
    }

    #[tactic(auto, using(crate::proofs::Shows::state_set, crate::proofs::Shows::setting_set))]
    fn resume(&mut self, seat: u8) -> Result<Told, Blame>
        ensures { (e : WaitEnd) → Does T.meaning self.old self.new (lines.Resume seat) e result }
    {
        let place = self.at(seat)?;
        if self.lock.is_some() {
            return Err(Blame::Held);
        }
        let told = match place {
            Place::Woken(_) => Told::Plain,
            Place::Waiting(_) => Told::Spurious,
            Place::Outside | Place::Active | Place::RanOut(_) => return Err(Blame::Awake),
        };
        self.take(seat);
        Ok(told)
    }

    #[tactic(auto, using(crate::proofs::Shows::state_set, crate::proofs::Shows::setting_set))]
    fn lapse(&mut self, seat: u8) -> Result<Told, Blame>
        ensures { (e : WaitEnd) → Does T.meaning self.old self.new (lines.Lapse seat) e result }
    {
        let place = self.at(seat)?;
        if self.lock.is_some() {
            return Err(Blame::Held);
        }
        let Place::RanOut(_) = place else {
            return Err(Blame::Awake);
        };
        let told = self.passing();
        self.take(seat);
        Ok(told)
    }

    /// Tests whether the seat holds the lock.
    fn holds(&self, seat: u8) -> Result<(), Blame>
        ensures { MatchResult result (λ _. (seat < length self.now.places) × (self.now.lock ≡ Some seat))
            (λ e. ((e ≡ Range) × (length self.now.places ≤ seat))
            ⊎ ((e ≡ NoLock) × (seat < length self.now.places) × (self.now.lock ≡ Some seat → ⊥))) }
    {
        let _place = self.at(seat)?;
        if self.lock == Some(seat) {
            Ok(())
        } else {
            Err(Blame::NoLock)
        }
    }

    #[tactic(auto, using(crate::proofs::Shows::state_set, crate::proofs::Shows::setting_set))]
    fn leave(&mut self, seat: u8) -> Result<Told, Blame>
        ensures { (e : WaitEnd) → Does T.meaning self.old self.new (lines.Leave seat) e result }
    {
        self.holds(seat)?;
        self.lock = None;
        self.put(seat, Place::Outside);
        Ok(Told::Plain)
    }

    #[tactic(auto, using(crate::proofs::Shows::state_set, crate::proofs::Shows::setting_set))]
    fn wait(&mut self, seat: u8, cond: u8, end: WaitEnd) -> Result<Told, Blame>
        ensures { Does T.meaning self.old self.new (lines.Wait seat cond) end result }
    {
        if cond >= self.conds {
            return Err(Blame::Range);
        }
        self.holds(seat)?;
        match end {
            WaitEnd::RunsOut => self.sleep(seat, Place::RanOut(cond), end),
            WaitEnd::Resumes(_) | WaitEnd::Never => self.sleep(seat, Place::Waiting(cond), end),
        }
        Ok(Told::Plain)
    }

    /// Lets the seat's lock go, and moves the seat to the place. `end` is how its wait ends.
    fn sleep(&mut self, seat: u8, place: Place, end: WaitEnd)
        requires { seat < length self.old.places }
        ensures { self.new ≡ shown self.old.conds None (slice_set self.old.places seat place)
            (slice_set self.old.ends seat end) self.old.data_now }
    {
        self.lock = None;
        self.places[usize::from(seat)] = place;
        self.ends[usize::from(seat)] = end;
    }

    /// Tests whether the seat may signal: it holds the lock, or it is outside.
    fn may_signal(&self, seat: u8, cond: u8) -> Result<(), Blame>
        ensures { MatchResult result (λ _. MaySignal (setting_of self.now T.meaning) (state_of self.now) seat cond)
            (λ e. IsBlamed (setting_of self.now T.meaning) (state_of self.now) (lines.Signal seat cond) e
            × (MaySignal (setting_of self.now T.meaning) (state_of self.now) seat cond → ⊥)) }
    {
        let place = self.at(seat)?;
        if cond >= self.conds {
            return Err(Blame::Range);
        }
        if self.lock == Some(seat) || place == Place::Outside {
            Ok(())
        } else {
            Err(Blame::NoLock)
        }
    }

    /// Returns how the wait of the seat ends.
    fn end_of(&self, seat: u8) -> WaitEnd
        requires { seat < length self.now.places }
        ensures { result ≡ slice_index_or self.now.ends seat (Resumes 0) }
    {
        self.ends[usize::from(seat)]
    }

    /// Returns the one of two seats whose wait ends earlier by a `resume`, the first if neither does.
    fn earlier(&self, one: u8, other: u8) -> u8
        requires { (one < length self.now.places) × (other < length self.now.places) }
        ensures one_of_them { (result ≡ one) ⊎ (result ≡ other) }
        ensures first { ResumesNoLater self.now result one × ResumesNoLater self.now result other }
        ensures strict { (result ≡ one) ⊎ (ResumesNoLater self.now one result → ⊥) }
    {
        if self.end_of(other).is_before(self.end_of(one)) {
            other
        } else {
            one
        }
    }

    /// Returns the one that comes back first, of `first`, the first below the seat, and the seat.
    #[tactic(auto, using(crate::proofs::Firsts::first_alone, crate::proofs::Firsts::first_on))]
    fn first_of(&self, cond: u8, first: Option<u8>, seat: u8) -> u8
        requires sleeps { (seat < length self.now.places)
            × (slice_index_or self.now.places seat Outside ≡ Waiting cond) }
        requires below { IsFirstBelow seat self.now cond first }
        ensures { IsFirstBelow (seat + 1) self.now cond (Some result) }
    {
        match first {
            Some(one) => self.earlier(one, seat),
            None => seat,
        }
    }

    /// Returns the sleeper on the condition that comes back first, the one with the lowest seat if several do.
    #[tactic(auto, using(crate::proofs::Firsts::first_skip, crate::proofs::Firsts::first_all))]
    fn first_back(&self, cond: u8) -> Option<u8>
        ensures sleeps { MatchOption result ((j : ℕ) → slice_index_or self.now.places j Outside ≡ Waiting cond → ⊥)
            (λ j. (j < length self.now.places) × (slice_index_or self.now.places j Outside ≡ Waiting cond)) }
        ensures earliest { IsEarliest self.now cond result }
    {
        let mut first: Option<u8> = None;
        for (index, place) in self.places.iter().enumerate() {
            if place.waits_on(cond) {
                first = Some(self.first_of(cond, first, index as u8));
            }
        }
        first
    }

    #[tactic(auto, using(crate::proofs::Shows::state_set, crate::proofs::Shows::setting_set))]
    fn signal(&mut self, seat: u8, cond: u8) -> Result<Told, Blame>
        ensures { (e : WaitEnd) → Does T.meaning self.old self.new (lines.Signal seat cond) e result }
    {
        self.may_signal(seat, cond)?;
        match self.first_back(cond) {
            Some(first) => {
                self.put(first, Place::Woken(cond));
                Ok(Told::Woke(first))
            }
            None => Ok(Told::Unheard),
        }
    }

    #[tactic(auto, using(crate::proofs::Shows::state_set, crate::proofs::Shows::setting_set))]
    fn broadcast(&mut self, seat: u8, cond: u8) -> Result<Told, Blame>
        ensures { (e : WaitEnd) → Does T.meaning self.old self.new (lines.Broadcast seat cond) e result }
    {
        self.may_signal(seat, cond)?;
        let many = self.asleep_on(cond);
        self.wake(cond);
        if many == 0 {
            return Ok(Told::Unheard);
        }
        Ok(Told::WokeAll(many))
    }

    /// Wakes all who sleep on the condition.
    fn wake(&mut self, cond: u8)
        ensures state { state_of self.new ≡ moved (λ j. woken cond (slice_index_or self.old.places j Outside))
            (state_of self.old) }
        ensures setting { (o : Object) → setting_of self.new o ≡ setting_of self.old o }
        ensures ends { self.new.ends ≡ self.old.ends }
    {
        mark_woken(&mut self.places, cond);
    }

    #[tactic(auto, using(crate::proofs::Shows::state_set, crate::proofs::Shows::setting_set))]
    fn act(&mut self, seat: u8, op: Op, reply: u64) -> Result<Told, Blame>
        ensures { (e : WaitEnd) → Does T.meaning self.old self.new (lines.Act seat op reply) e result }
    {
        if op.code >= T::CODES {
            return Err(Blame::Range);
        }
        self.holds(seat)?;
        let given = self.object.act(op);
        if given != reply {
            return Err(Blame::Reply);
        }
        Ok(Told::Plain)
    }
}
