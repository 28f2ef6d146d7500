/// How a visit looks at its predicate, and for whom its releases wish.
#[derive(Clone, Copy)]
pub(crate) enum Manner {
    /// It pauses while its predicate is false (`while`), and wishes for a waiter.
    Patient,
    /// If its predicate is false, it pauses once (`if`). It then acts, whatever holds, and wishes for entry.
    Hasty,
}
