//! The audit of a text that comes in pieces.

ghost use Rattle.std.specs.Prelude.{◌≡◌, ◌≤◌, List, ℕ, [], None, Ok, OnOk, IfSome, length};
ghost use Rattle.monk_history.specs.Text.Lines.{Gives};
ghost use Rattle.monk_audit.specs.{Audits.owes, Audits.IsGoingOn, Pieces.IsCarried, Reading.same, Reading.text_verdict};

use crate::stage::Stage;
use crate::text_verdict::TextVerdict;
use monk_history::ReadFault;
use std::alloc::{AllocError, Global};
use std::mem;

/// The audit of a text that comes in pieces. A line is judged when it ends, and only the unfinished
/// line is kept. After the first fault nothing is kept.
///
/// Contracts see the verdict that it owes for bytes that are still to come: what
/// [`audit_text`](crate::audit_text) answers for the text that they complete.
#[derive(Drop)]
pub struct TextAudit {
    stage: Stage,
    held: Vec<u8>,
    fault: Option<ReadFault>,
}

impl TextAudit {
    /// Returns the audit of a text before any of it has come. It takes no memory.
    pub fn new(alloc: Global) -> TextAudit
        ensures owes { (text : List ℕ) → owes result text ≡ text_verdict text }
        ensures goes_on { IsGoingOn result }
    {
        TextAudit {
            stage: Stage::Opening,
            held: Vec::new(alloc),
            fault: None,
        }
    }

    /// Takes the next piece of the text, and judges the lines that end in it. After an error the audit can't go on.
    ///
    /// # Errors
    ///
    /// If a request for memory was refused.
    ///
    /// # Cost
    ///
    /// Time by the length of the piece and of a line that ends in it. Memory for a line that began
    /// in an earlier piece, for the line that has not ended, for the queues and for the object.
    pub fn push(&mut self, alloc: Global, piece: &[u8]) -> Result<(), AllocError>
        requires { IsGoingOn self.old }
        ensures carried { OnOk result (IsCarried (owes self.old) piece.now (owes self.new) []) }
        ensures goes_on { OnOk result (IsGoingOn self.new) }
    {
        if self.held.is_empty() {
            return self.take(alloc, piece);
        }
        match line_end(piece) {
            // The held part of a line is not looked through again.
            None => Ok(self.held.extend_from_slice(piece)?),
            Some(end) => {
                let (line, rest) = piece.split_at(end);
                self.take(alloc, line)?;
                self.take(alloc, rest)
            }
        }
    }

    /// Takes the next piece, and judges the lines that end in it. If no line is held, it judges them in place.
    fn take(&mut self, alloc: Global, piece: &[u8]) -> Result<(), AllocError>
        requires { IsGoingOn self.old }
        ensures carried { OnOk result (IsCarried (owes self.old) piece.now (owes self.new) []) }
        ensures goes_on { OnOk result (IsGoingOn self.new) }
    {
        if self.fault.is_some() {
            return Ok(());
        }
        if self.held.is_empty() {
            return self.judge(alloc, piece);
        }
        self.held.extend_from_slice(piece)?;
        let held = mem::replace(&mut self.held, Vec::new(alloc));
        self.judge(alloc, &held)
    }

    /// Judges the lines that end in the bytes, and holds what follows the last of them. Nothing is held before.
    fn judge(&mut self, alloc: Global, bytes: &[u8]) -> Result<(), AllocError>
        requires goes_on { IsGoingOn self.old }
        requires held { self.old.held.items ≡ [] }
        requires fault { self.old.fault ≡ None }
        ensures carried { OnOk result (IsCarried (owes self.old) bytes.now (owes self.new) []) }
        ensures goes_on { OnOk result (IsGoingOn self.new) }
    {
        match self.stage.judge(alloc, bytes) {
            Ok(rest) => Ok(self.held.extend_from_slice(rest)?),
            Err(fault) => {
                self.stage = Stage::Opening;
                self.fault = Some(fault);
                if fault.number == ReadFault::MEMORY {
                    Err(AllocError)
                } else {
                    Ok(())
                }
            }
        }
    }

    /// Ends the audit, and returns what it found in the text received so far.
    ///
    /// # Errors
    ///
    /// The text's first fault, or the memory fault if a request for memory was refused. The memory
    /// fault can't occur if the header's size is above the object's greatest.
    pub fn end(self, alloc: Global) -> Result<TextVerdict, ReadFault>
        requires { IsGoingOn self }
        ensures verdict { Gives same result (owes self []) }
        // If the size is above the object's greatest, the memory fault can't occur.
        ensures too_big { owes self [] ≡ Ok TextVerdict.TooBig → result ≡ Ok TextVerdict.TooBig }
    {
        match self.fault {
            Some(fault) => Err(fault),
            None => self.stage.end(alloc, &self.held),
        }
    }
}

/// Returns the length of the piece's first line with its end, if one ends in it.
fn line_end(piece: &[u8]) -> Option<usize>
    ensures { IfSome result (λ end. end ≤ length piece.now) }
{
    let last = piece.iter().position(|byte| *byte == b'\n')?;
    Some(last + 1)
}
