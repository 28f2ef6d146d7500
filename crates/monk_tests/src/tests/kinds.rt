use monk_kinds::{
    Kind, KindName, Mode, Npb, Npir, Npis, Npnb, Npqb, Ordering13, Pb, Pir, Pis, Pnb, Pqb,
    classify, rules_of,
};

/// The texts of the ten kinds, and for each its mode and the ordering of its priorities.
#[test]
fn the_ten_kinds(rt: HostRuntime) {
    let well = is_kind::<Pb>(b"PB", Mode::Blocking, b"Ep<Sp<Wp")
        && is_kind::<Npb>(b"NPB", Mode::Blocking, b"Ep=Sp<Wp")
        && is_kind::<Pnb>(b"PNB", Mode::NonBlocking, b"Ep<Wp<Sp")
        && is_kind::<Npnb>(b"NPNB", Mode::NonBlocking, b"Ep=Wp<Sp")
        && is_kind::<Pqb>(b"PQB", Mode::QuasiBlocking, b"Ep<Wp=Sp")
        && is_kind::<Npqb>(b"NPQB", Mode::QuasiBlocking, b"Ep=Wp=Sp")
        && is_kind::<Pir>(b"PIR", Mode::ImmediateReturn, b"Ep=Sp<Wp")
        && is_kind::<Npir>(b"NPIR", Mode::ImmediateReturn, b"Ep=Wp=Sp")
        && is_kind::<Pis>(b"PIS", Mode::Automatic, b"Ep=Sp<Wp")
        && is_kind::<Npis>(b"NPIS", Mode::Automatic, b"Ep=Wp=Sp");
    assert!(rt; well);
}

/// Whether the kind has this text, mode and ordering, and the text names it.
fn is_kind<K: Kind>(text: &[u8], mode: Mode, ordering: &[u8]) -> bool {
    let rules = rules_of::<K>();
    K::NAME.text() == text
        && K::NAME.as_str().as_bytes() == text
        && KindName::of_text(text) == Some(K::NAME)
        && rules.mode == mode
        && classify(rules.entry, rules.waiter, rules.signaller).text() == ordering
}

static NO_KINDS: [&[u8]; 4] = [b"", b"pb", b"PB ", b"NPISX"];

#[test]
fn other_texts_name_no_kind(rt: HostRuntime) {
    for text in NO_KINDS.iter() {
        assert!(rt; KindName::of_text(text).is_none());
    }
}

/// Three priorities of 0 to 3 have all thirteen orderings. In six of them entry is above neither other. Their kinds
/// are the six with a signaller queue.
#[test]
fn thirteen_orderings(rt: HostRuntime) {
    let mut seen = [false; 13];
    for e in 0..4u8 {
        for w in 0..4u8 {
            for s in 0..4u8 {
                let ordering = classify(e, w, s);
                assert!(rt; ordering.kind().is_some() == (e <= w && e <= s));
                for (known, was) in Ordering13::ALL.iter().zip(seen.iter_mut()) {
                    *was = *was || *known == ordering;
                }
            }
        }
    }
    assert!(rt; seen == [true; 13]);
}
