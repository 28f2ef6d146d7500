//! What a program calls its seats and its conditions.

/// The names of seats and of conditions, as far as they are known, from number 0 on. A picture of
/// text takes each byte for one column.
#[derive(Clone, Copy, Debug, PartialEq, Eq)]
pub struct Names<'a> {
    /// The names of the seats.
    pub seats: &'a [&'a str],
    /// The names of the conditions. In an automatic history they are those of the predicates.
    pub conditions: &'a [&'a str],
}

impl Names<'_> {
    /// No names.
    pub const NONE: Names<'static> = Names {
        seats: &[],
        conditions: &[],
    };
}
