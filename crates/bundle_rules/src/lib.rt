// Document 02, No. 1: what a bundle is, as definitions, and all that is proved about them alone. There is no code but for the refusals.
#![tactic(auto)]

ghost use Rattle.std.specs.Prelude.{◌≡◌};
ghost use Rattle.bundle_rules.specs.Reading.{number_of};

#[derive(Clone, Copy)]
pub enum Refusal {
    CutShort,
    TooMany,
    BadName,
    BadBodies,
}

// Document 02's number of a refusal.
impl From<Refusal> for u8 {
    ghost from_gives = { λ r n. n ≡ number_of r };

    fn from(r: Refusal) -> u8 {
        match r {
            Refusal::CutShort => 20,
            Refusal::TooMany => 21,
            Refusal::BadName => 22,
            Refusal::BadBodies => 23,
        }
    }
}
