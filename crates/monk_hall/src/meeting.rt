//! How two seats share what they have seen.
ghost use Rattle.std.specs.Prelude.{◌≡◌, [], ◌∷◌, ◌++◌};
ghost use Rattle.monk_hall.specs.declared.deed.Deed.TheVariants as deed;
ghost use Rattle.monk_hall.specs.{Changes.longer, Floors.StartsWith, Tells.AreOne, Tells.SeesTruly, Tokens.top};

use crate::hall::Hall;
use crate::pass::Pass;
use crate::record::View;
use crate::rule::TableSeat;
use atomic_table::Badge;
use monk_kinds::Kind;
use monk_object::Guarded;
use std::mem;

/// Takes the seat out of its badge, which is left blank.
fn lift<K: Kind, T: Guarded>(badge: &mut Badge<View>) -> TableSeat<K, T>
    requires { badge.old.views ≡ top badge.old.views ∷ [] }
    ensures { (result.table_id ≡ badge.old.table_id) × (result.me ≡ (top badge.old.views, [])) }
{
    mem::replace(badge, Badge::blank()).into_seat()
}

/// Lets two seats that are outside share what they have seen of the history. One of the two histories begins the
/// other. From now on both seats know the longer, which begins with what either had seen. Nothing that a program can
/// read changes, and each seat takes one step.
pub fn meet<K: Kind, T: Guarded>(hall: &Hall<K, T>, a: &mut Pass<K, T>, b: &mut Pass<K, T>)
    requires { (a.old.hall ≡ hall.now.id) × (b.old.hall ≡ hall.now.id) }
    ensures one { AreOne a.old.me.seen b.old.me.seen }
    ensures first { a.new ≡ record a.old
        { me = record a.old.me { seen = longer a.old.me.seen b.old.me.seen; did = a.old.me.did ++ deed.Meet ∷ [] } } }
    ensures second { b.new ≡ record b.old
        { me = record b.old.me { seen = longer a.old.me.seen b.old.me.seen; did = b.old.me.did ++ deed.Meet ∷ [] } } }
    ensures first_learns { StartsWith a.new.me.seen a.old.me.seen × StartsWith a.new.me.seen b.old.me.seen }
    ensures second_learns { StartsWith b.new.me.seen a.old.me.seen × StartsWith b.new.me.seen b.old.me.seen }
    ensures told { SeesTruly K.rules T.meaning a.new.me × SeesTruly K.rules T.meaning b.new.me }
{
    let words = &hall.words;
    let mut first: TableSeat<K, T> = lift::<K, T>(&mut a.badge);
    let other: TableSeat<K, T> = lift::<K, T>(&mut b.badge);
    words.join(&mut first, other);
    words.compare(&mut first);
    let second = words.part(&mut first);
    a.badge = first.into_badge();
    b.badge = second.into_badge();
}
