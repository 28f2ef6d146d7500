//! The stream that names an ordering of three priorities.

ghost use Rattle.std.specs.Prelude.{◌≡◌, true, false, IfOk, OnOk, OnErr, Err};
ghost use Rattle.monk_kinds.specs.{Orderings.IsOrdered, declared.ordering.Ordering13.Ordering13};
ghost use Rattle.monk_history.specs.Text.Device.{has_failed, Writes};
ghost use Rattle.monk_commands.specs.Classified.{ordering_lines};

use crate::fault::StreamFault;
use monk_history::Device;
use monk_kinds::{Ordering13, classify};
use std::io;
use std::io::Write;

/// Writes two lines. The first is the ordering of the priorities of the entry, waiter and signaller queues (greater
/// is higher), as `Ep<Sp<Wp`. The second is its kind of monitor, or `rejected` if calling tasks could keep those
/// inside waiting without bound. Returns the exit status 0. It takes no memory.
///
/// # Errors
///
/// [`StreamFault::File`] if the writer failed.
pub fn classify_stream<W: Write>(
    e: u8,
    w: u8,
    s: u8,
    writer: &mut Device<W>,
) -> Result<u8, StreamFault>
    requires { has_failed writer.old ≡ false }
    ensures zero { IfOk result (λ status. status ≡ 0) }
    ensures lines { IfOk result
        (λ status. (o : Ordering13)
        × (IsOrdered o e w s × Writes W.contents writer.old writer.new (ordering_lines o))) }
    ensures file { OnErr result ((result ≡ Err StreamFault.File) × (has_failed writer.new ≡ true)) }
{
    match put_ordering(classify(e, w, s), writer) {
        Ok(()) => Ok(0),
        Err(_) => Err(StreamFault::File),
    }
}

fn put_ordering<W: Write>(ordering: Ordering13, writer: &mut Device<W>) -> io::Result<()>
    requires { has_failed writer.old ≡ false }
    ensures lines { OnOk result (Writes W.contents writer.old writer.new (ordering_lines ordering)) }
    ensures fails { OnErr result (has_failed writer.new ≡ true) }
{
    writer.write_all(ordering.text())?;
    match ordering.kind() {
        Some(kind) => {
            writer.write_all(b"\n")?;
            writer.write_all(kind.text())?;
            writer.write_all(b"\n")
        }
        None => writer.write_all(b"\nrejected\n"),
    }
}
