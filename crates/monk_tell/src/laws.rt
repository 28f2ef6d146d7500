//! What holds for all answers.

ghost use Rattle.std.specs.{Prelude.IsTrue, Prelude.is_some, List.Contains};
ghost use Rattle.monk_kinds.specs.declared.mode.Rules.{Rules};
ghost use Rattle.monk_object.specs.Object.{Object};
ghost use Rattle.monk_history.specs.{declared.event.Event.Event, declared.event.Next.Next, Meaning.Choice.is_permitted};
ghost use Rattle.monk_history.specs.{Meaning.Events.next_of, Meaning.Release.with_next, Meaning.Situation.Situation};
ghost use Rattle.monk_tell.specs.Told.{chosen_at};

/// The list has exactly the choices that a release might have made. Apart from stay and entry, only
/// the front of a queue is ever permitted.
pub fn permitted_are_listed()
    ensures all { (k : Rules) (o : Object) (t : Situation) (e : Event) (x : Next) → IsTrue (is_some (next_of e))
        → IsTrue (is_permitted k o t (with_next x e)) → Contains (chosen_at k o t e).may x }
    ensures only { (k : Rules) (o : Object) (t : Situation) (e : Event) (x : Next)
        → Contains (chosen_at k o t e).may x → IsTrue (is_permitted k o t (with_next x e)) }
{}
