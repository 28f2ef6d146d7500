//! The answer to C.
ghost use Rattle.std.specs.Prelude.{◌≡◌};
ghost use Rattle.monk_c.specs.Answers.{refusal_number};

use crate::refusal::Refusal;

/// A number for C, and the word that was granted: 0 for none.
#[derive(Clone, Copy)]
pub struct Reply {
    pub code: i32,
    pub granted: usize,
}

impl Reply {
    /// Returns the reply that the call was refused.
    pub fn refused(refusal: Refusal) -> Reply
        ensures { (result.code ≡ refusal_number refusal) × (result.granted ≡ 0) }
    {
        Reply {
            code: refusal.number(),
            granted: 0,
        }
    }
}
