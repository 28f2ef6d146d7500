//! What holds for every floor, as laws that other crates may cite. Each function does nothing: its contract is the law.
ghost use Rattle.monk_floor.specs.Headed.{LegalAsHeaded};

/// If a header has a floor's numbers, and its object opens as the floor's did, it names the floor's monitor. Then a
/// history that is legal for the floor is legal as a text under that header, and an audit finds it legal.
pub fn legal_as_headed()
    ensures { LegalAsHeaded }
{}
