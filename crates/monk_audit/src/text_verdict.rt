use crate::verdict::Verdict;

/// What an audit of a text found.
#[derive(Clone, Copy, Debug, PartialEq, Eq)]
pub enum TextVerdict {
    /// The history was judged.
    Judged(Verdict),
    /// The size is above the object's greatest.
    TooBig,
}
