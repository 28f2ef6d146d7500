//! Reading all that a reader has, within bounds.

ghost use Rattle.std.specs.Prelude.{◌≡◌, ◌<◌, [], false, length, IfOk, OnOk, IfSome};
ghost use Rattle.monk_history.specs.Text.Device.{inner_of, has_failed};
ghost use Rattle.monk_commands.specs.Streams.{IsReading};

use crate::fault::StreamFault;
use monk_history::Device;
use std::alloc::{AllocError, Global};
use std::io::Read;

/// The most bytes of an input, and the most reads for it.
const MOST: usize = 1 << 31;

/// How many bytes one read asks for.
const CHUNK: usize = 1 << 16;

fn zeroes(alloc: Global, count: usize) -> Result<Vec<u8>, AllocError>
    ensures { IfOk result (λ v. length v.items ≡ count) }
{
    vec![in alloc; 0u8; count]
}

/// A type that takes the bytes of an input, by pieces.
pub(crate) trait Taker {
    ghost use Rattle.std.specs.Prelude.{ℕ, List, [], OnOk};
    ghost use Rattle.monk_audit.specs.Pieces.{IsCarried};

    ghost Told: { Type 0 };

    // the result, if these bytes are still to come
    ghost tells: { Self → List ℕ → Told };

    // it can take more
    ghost is_sound: { Self → Type 0 };

    /// Takes the next piece, no matter where the input is cut.
    fn take(&mut self, alloc: Global, piece: &[u8]) -> Result<(), AllocError>
        requires { is_sound self.old }
        ensures carried { OnOk result (IsCarried (tells self.old) piece.now (tells self.new) []) }
        ensures sound { OnOk result (is_sound self.new) };
}

/// Keeps the bytes themselves.
impl Taker for Vec<u8> {
    ghost use Rattle.std.specs.Prelude.{ℕ, List, ◌++◌, ⊤};

    ghost Told = { List ℕ };

    ghost tells = { λ v more. v.items ++ more };

    ghost is_sound = { λ _. ⊤ };

    fn take(&mut self, _alloc: Global, piece: &[u8]) -> Result<(), AllocError> {
        self.extend_from_slice(piece)
    }
}

/// Hands on all that the reader has to the taker, at most 2^31 bytes in at most 2^31 reads. A
/// piece has at most the chunk's length.
fn hand_on<R: Read, T: Taker>(
    alloc: Global,
    reader: &mut Device<R>,
    chunk: &mut [u8],
    taker: &mut T,
) -> Result<(), StreamFault>
    requires works { has_failed reader.old ≡ false }
    requires room { 0 < length chunk.old }
    requires sound { T.is_sound taker.old }
    ensures told { OnOk result (IfSome (R.remaining (inner_of reader.old))
        (λ input. T.tells taker.old input ≡ T.tells taker.new [])) }
    ensures sound { OnOk result (T.is_sound taker.new) }
    ensures reading { IsReading R.remaining reader.old reader.new result }
{
    let mut count = 0;
    for _ in 0..MOST {
        let Ok(taken) = reader.read(chunk) else {
            return Err(StreamFault::File);
        };
        if taken == 0 {
            return Ok(());
        }
        if taken > MOST - count {
            return Err(StreamFault::File);
        }
        count += taken;
        taker.take(alloc, &chunk[..taken])?;
    }
    Err(StreamFault::File)
}

/// Lets the taker take all that the reader has, at most 2^31 bytes in at most 2^31 reads.
pub(crate) fn take_all<R: Read, T: Taker>(
    alloc: Global,
    reader: &mut Device<R>,
    taker: &mut T,
) -> Result<(), StreamFault>
    requires works { has_failed reader.old ≡ false }
    requires sound { T.is_sound taker.old }
    ensures told { OnOk result (IfSome (R.remaining (inner_of reader.old))
        (λ input. T.tells taker.old input ≡ T.tells taker.new [])) }
    ensures sound { OnOk result (T.is_sound taker.new) }
    ensures reading { IsReading R.remaining reader.old reader.new result }
{
    let mut chunk = zeroes(alloc, CHUNK)?;
    hand_on(alloc, reader, &mut chunk, taker)
}

/// Returns all that the reader has, at most 2^31 bytes in at most 2^31 reads.
pub(crate) fn read_all<R: Read>(
    alloc: Global,
    reader: &mut Device<R>,
) -> Result<Vec<u8>, StreamFault>
    requires { has_failed reader.old ≡ false }
    ensures bytes { IfOk result (λ v. IfSome (R.remaining (inner_of reader.old)) (λ input. v.items ≡ input)) }
    ensures reading { IsReading R.remaining reader.old reader.new result }
{
    let mut bytes = Vec::new(alloc);
    take_all(alloc, reader, &mut bytes)?;
    Ok(bytes)
}
