//! Kinds that are known by name: the rules of one, and a header with another.

ghost use Rattle.std.specs.Prelude.{◌≡◌};
ghost use Rattle.monk_kinds.specs.Names.{rules_named};
ghost use Rattle.monk_audit.specs.Under.{under};

use monk_history::Header;
use monk_kinds::{KindName, Npb, Npir, Npis, Npnb, Npqb, Pb, Pir, Pis, Pnb, Pqb, Rules, rules_of};

/// Returns the rules of the kind of that name.
pub fn rules_by_name(kind: KindName) -> Rules
    ensures { result ≡ rules_named kind }
{
    match kind {
        KindName::Pb => rules_of::<Pb>(),
        KindName::Npb => rules_of::<Npb>(),
        KindName::Pnb => rules_of::<Pnb>(),
        KindName::Npnb => rules_of::<Npnb>(),
        KindName::Pqb => rules_of::<Pqb>(),
        KindName::Npqb => rules_of::<Npqb>(),
        KindName::Pir => rules_of::<Pir>(),
        KindName::Npir => rules_of::<Npir>(),
        KindName::Pis => rules_of::<Pis>(),
        KindName::Npis => rules_of::<Npis>(),
    }
}

/// Returns the header with another kind, to judge the same events under that kind.
///
/// Its version is that of a new header: the version plays no part in judging.
pub fn under(header: &Header, kind: KindName) -> Header
    ensures { result ≡ under kind header.now }
{
    let (seats, conds) = (header.seats(), header.conds());
    match Header::new(kind, seats, conds, header.object(), header.size()) {
        Some(header) => header,
        // The numbers of a header are in range.
        None => unreachable!(),
    }
}
