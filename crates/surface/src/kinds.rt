//! The kinds, their families, and the orderings.

use monk_kinds::{
    Automatic, Blocking, Conditional, Explicit, ImmediateReturn, Kind, KindName, Mode, NonBlocking,
    Npb, Npir, Npis, Npnb, Npqb, Ordering13, Pb, Pick, Pir, Pis, Pnb, Pqb, QuasiBlocking, classify,
};

/// The five modes.
pub fn mode_number(mode: Mode) -> u8 {
    match mode {
        Mode::Blocking => 1,
        Mode::NonBlocking => 2,
        Mode::QuasiBlocking => 3,
        Mode::ImmediateReturn => 4,
        Mode::Automatic => 5,
    }
}

/// The ten names.
pub fn kind_number(kind: KindName) -> u8 {
    match kind {
        KindName::Pb => 1,
        KindName::Npb => 2,
        KindName::Pnb => 3,
        KindName::Npnb => 4,
        KindName::Pqb => 5,
        KindName::Npqb => 6,
        KindName::Pir => 7,
        KindName::Npir => 8,
        KindName::Pis => 9,
        KindName::Npis => 10,
    }
}

/// The three wishes.
pub fn pick_number(pick: Pick) -> u8 {
    match pick {
        Pick::Entry => 1,
        Pick::Waiter => 2,
        Pick::Signaller => 3,
    }
}

pub fn ordering_of(e: u8, w: u8, s: u8) -> Ordering13 {
    classify(e, w, s)
}

pub fn kind_of_ordering(ordering: Ordering13) -> Option<KindName> {
    ordering.kind()
}

pub fn text_of_ordering(ordering: Ordering13) -> &'static [u8] {
    ordering.text()
}

pub fn text_of_kind(kind: KindName) -> &'static [u8] {
    kind.text()
}

pub fn kind_of_text(text: &[u8]) -> Option<KindName> {
    KindName::of_text(text)
}

/// The priorities of the entry, waiter and signaller queues.
pub fn priorities<K: Kind>() -> [u8; 3] {
    [K::ENTRY, K::WAITER, K::SIGNALLER]
}

pub fn mode_of<K: Kind>() -> Mode {
    K::MODE
}

pub fn name_of<K: Kind>() -> KindName {
    K::NAME
}

/// The ten types, each by its family.
pub fn ten_types() {
    is_blocking::<Pb>();
    is_blocking::<Npb>();
    is_non_blocking::<Pnb>();
    is_non_blocking::<Npnb>();
    is_quasi_blocking::<Pqb>();
    is_quasi_blocking::<Npqb>();
    is_immediate_return::<Pir>();
    is_immediate_return::<Npir>();
    is_automatic::<Pis>();
    is_automatic::<Npis>();
}

pub fn is_blocking<K: Blocking>() {
    is_explicit::<K>();
}

pub fn is_non_blocking<K: NonBlocking>() {
    is_explicit::<K>();
}

pub fn is_quasi_blocking<K: QuasiBlocking>() {
    is_explicit::<K>();
}

pub fn is_explicit<K: Explicit>() {
    is_conditional::<K>();
}

pub fn is_immediate_return<K: ImmediateReturn>() {
    is_conditional::<K>();
}

pub fn is_conditional<K: Conditional>() {
    is_kind::<K>();
}

pub fn is_automatic<K: Automatic>() {
    is_kind::<K>();
}

pub fn is_kind<K: Kind>() {
    may_be_shared::<K>();
}

/// What every kind is.
pub fn may_be_shared<K: Send + Sync + Drop>() {}
