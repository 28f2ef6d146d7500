//! A replay that follows the history of a world.

ghost use Rattle.std.specs.Prelude.{◌≡◌, ℕ, List, IfOk, OnOk, take};
ghost use Rattle.monk_history.specs.Meaning.{Legal.IsLegal, Monitor.monitor, Situation.situation};
ghost use Rattle.monk_floor.specs.View.{monitor_of};
ghost use Rattle.monk_world.specs.{WorldViews.state_of_view, StepTable.IsStep};
ghost use Rattle.monk_commands.specs.Following.{IsBehind};
ghost use Rattle.monk_audit.specs.Replay.{IsReplayOf, replay_situation, seats_in};

use monk_audit::Replay;
use monk_history::Event;
use monk_kinds::{Kind, Rules, rules_of};
use monk_object::Guarded;
use monk_world::{Answer, Command, World};
use std::alloc::{AllocError, Global};

/// A replay of a monitor with `conds` conditions, over an object of its own, because nobody sees the world's.
#[derive(Drop)]
pub(crate) struct Follower<T: Guarded> {
    pub(crate) replay: Replay,
    pub(crate) object: T,
    pub(crate) conds: u8,
}

impl<T: Guarded> Follower<T> {
    /// Carries out the events of a legal history after the first `done`, which it has carried out already.
    fn follow(
        &mut self,
        alloc: Global,
        rules: Rules,
        events: &[Event],
        done: usize,
    ) -> Result<(), AllocError>
        requires sound { IsReplayOf (seats_in self.old.replay) self.old.conds T.PREDICATES self.old.replay }
        ensures same { self.new.conds ≡ self.old.conds }
        ensures sound { OnOk result
            (IsReplayOf (seats_in self.old.replay) self.old.conds T.PREDICATES self.new.replay) }
        ensures stands { OnOk result ((opening : List ℕ)
            → let m = monitor rules (seats_in self.old.replay) self.old.conds T.meaning opening in
            IsLegal m events.now
            → replay_situation self.old.replay (T.state self.old.object) ≡ situation m (take done events.now)
            → replay_situation self.new.replay (T.state self.new.object) ≡ situation m events.now) }
    {
        for index in done..events.len() {
            let event = events[index];
            self.replay
                .carry_out(alloc, rules, &mut self.object, self.conds, event)?;
        }
        Ok(())
    }

    /// Gives a command to a seat of the world, and carries out the events that this adds.
    pub(crate) fn step<K: Kind>(
        &mut self,
        alloc: Global,
        world: &mut World<K, T>,
        seat: u8,
        command: Command,
    ) -> Result<Answer, AllocError>
        requires { IsBehind (monitor_of K.rules T.meaning (state_of_view world.old).floor) T.PREDICATES self.old.conds
            self.old.replay (T.state self.old.object) (state_of_view world.old).floor.history }
        ensures step { IfOk result
            (λ a. IsStep K.rules T.meaning (state_of_view world.old) seat command a (state_of_view world.new)) }
        ensures same { OnOk result (monitor_of K.rules T.meaning (state_of_view world.new).floor
            ≡ monitor_of K.rules T.meaning (state_of_view world.old).floor) }
        ensures behind { OnOk result (IsBehind (monitor_of K.rules T.meaning (state_of_view world.new).floor)
            T.PREDICATES self.new.conds self.new.replay (T.state self.new.object)
            (state_of_view world.new).floor.history) }
    {
        let done = world.history().len();
        let answer = world.step(seat, command);
        self.follow(alloc, rules_of::<K>(), world.history(), done)?;
        Ok(answer)
    }
}
