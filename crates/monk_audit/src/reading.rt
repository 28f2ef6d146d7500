//! The audit of a text: each event is judged when its line is read, so that no list of events is held.

ghost use Rattle.std.specs.Prelude.{◌≡◌};
ghost use Rattle.monk_history.specs.Text.Lines.{Gives};
ghost use Rattle.monk_audit.specs.Reading.{text_verdict, same, MakesNoObject};

use crate::stage::Stage;
use crate::text_verdict::TextVerdict;
use monk_history::ReadFault;
use std::alloc::Global;

/// Reads a text as [`read`](monk_history::read) does and judges its history as
/// [`audit`](crate::audit) does, in one pass.
///
/// # Errors
///
/// The text's first fault, even if it comes after a forbidden event. The memory fault if a request for memory
/// was refused; it may come before a fault of a later line. If the text has no header, or its size is above
/// the object's greatest, no memory is asked for, and so this fault can't occur.
///
/// # Cost
///
/// One pass over the bytes. Memory is needed for the queues and the object alone.
pub fn audit_text(alloc: Global, bytes: &[u8]) -> Result<TextVerdict, ReadFault>
    ensures verdict { Gives same result (text_verdict bytes.now) }
    // If no object is made, the memory fault can't occur.
    ensures too_big { MakesNoObject bytes.now → result ≡ text_verdict bytes.now }
{
    Stage::Opening.end(alloc, bytes)
}
