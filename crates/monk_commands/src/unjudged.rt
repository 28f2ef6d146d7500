//! A file that can't be opened or read, as a line of JSON.

ghost use Rattle.std.specs.Prelude.{◌≡◌, false};
ghost use Rattle.monk_history.specs.Text.Device.{has_failed};
ghost use Rattle.monk_commands.specs.Streams.{IsWriting};

use crate::fault::StreamFault;
use crate::logs::finding_json::fault_json;
use monk_history::Device;
use std::alloc::Global;
use std::io::Write;

/// Writes a line of JSON that names a file which can't be opened or read, and says why. The name and the reason may be
/// any texts: none of them can end the line.
///
/// # Errors
///
/// [`StreamFault::Memory`] if a request for memory was refused; then nothing was written. [`StreamFault::File`] if the
/// writer failed.
pub fn unjudged_stream<W: Write>(
    alloc: Global,
    name: &str,
    why: &str,
    writer: &mut Device<W>,
) -> Result<(), StreamFault>
    requires { has_failed writer.old ≡ false }
    ensures { IsWriting writer.old writer.new result }
{
    let line = fault_json(alloc, name, why)?;
    match writer.write_all(line.as_bytes()) {
        Ok(()) => Ok(()),
        Err(_) => Err(StreamFault::File),
    }
}
