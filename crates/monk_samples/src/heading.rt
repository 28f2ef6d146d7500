ghost use Rattle.std.specs.Prelude.{◌≡◌};
ghost use Rattle.monk_samples.specs.Samples.{conds_of, run_heading};

use crate::rota::Rota;
use monk_history::Header;
use monk_kinds::{Kind, Mode, rules_of};

/// Returns the header of the run's history.
pub(crate) fn header_of<K: Kind>(rota: Rota) -> Header
    ensures { result ≡ run_heading K.NAME rota.scenario rota.seats }
{
    let object = rota.scenario.sample.object();
    match Header::new(
        K::NAME,
        rota.seats,
        conds_of::<K>(),
        object,
        rota.scenario.size(),
    ) {
        Some(header) => header,
        // The numbers of a run are in range.
        None => unreachable!(),
    }
}

/// Returns how many conditions a run has under the kind.
pub(crate) fn conds_of<K: Kind>() -> u8
    ensures { result ≡ conds_of K.rules }
{
    match rules_of::<K>().mode {
        Mode::Automatic => 0,
        _ => 3,
    }
}
