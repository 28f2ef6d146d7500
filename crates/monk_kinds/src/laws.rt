//! What holds for the types and for the lists of the kinds and of the orderings. The contract of each function is
//! the law.
ghost use Rattle.std.specs.Prelude.{◌≡◌};
ghost use Rattle.monk_kinds.specs.{Names.kind_word, Names.kinds, Names.StandsOnce, Orderings.ordering_text};
ghost use Rattle.monk_kinds.specs.declared.{name.KindName.KindName, ordering.Ordering13.Ordering13};

use crate::name::KindName;
use crate::ordering::Ordering13;
use crate::{
    Automatic, Blocking, ImmediateReturn, NonBlocking, Npb, Npir, Npis, Npnb, Npqb, Pb, Pir, Pis,
    Pnb, Pqb, QuasiBlocking,
};

/// Every kind is in `KindName::ALL` exactly once, in the order of the kinds' numbers.
pub fn every_kind_is_listed()
    ensures once { (k : KindName) → StandsOnce kind_word KindName.ALL k }
    ensures order { KindName.ALL ≡ kinds }
{}

/// Every ordering is in `Ordering13::ALL` exactly once.
pub fn every_ordering_is_listed()
    ensures { (o : Ordering13) → StandsOnce ordering_text Ordering13.ALL o }
{}

/// The ten types that this crate exports are the ten kinds, in the order of `KindName::ALL`. So no name leads to
/// another kind's type. Each type is asked for its name by the bound of its family.
pub fn each_type_is_its_kind() -> [KindName; 10]
    ensures { result ≡ kinds }
{
    [
        blocking::<Pb>(),
        blocking::<Npb>(),
        non_blocking::<Pnb>(),
        non_blocking::<Npnb>(),
        quasi_blocking::<Pqb>(),
        quasi_blocking::<Npqb>(),
        immediate_return::<Pir>(),
        immediate_return::<Npir>(),
        automatic::<Pis>(),
        automatic::<Npis>(),
    ]
}

/// Returns the name of a kind whose signaller waits.
fn blocking<K: Blocking>() -> KindName
    ensures { result ≡ K.NAME }
{
    K::NAME
}

/// Returns the name of a kind whose signaller goes on.
fn non_blocking<K: NonBlocking>() -> KindName
    ensures { result ≡ K.NAME }
{
    K::NAME
}

/// Returns the name of a kind whose signaller ties with the signalled task.
fn quasi_blocking<K: QuasiBlocking>() -> KindName
    ensures { result ≡ K.NAME }
{
    K::NAME
}

/// Returns the name of a kind whose signaller leaves.
fn immediate_return<K: ImmediateReturn>() -> KindName
    ensures { result ≡ K.NAME }
{
    K::NAME
}

/// Returns the name of a kind without signals.
fn automatic<K: Automatic>() -> KindName
    ensures { result ≡ K.NAME }
{
    K::NAME
}
