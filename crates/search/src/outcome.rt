ghost use Rattle.std.specs.Prelude.{◌≡◌};
ghost use Rattle.search.specs.Outcomes.{number};

pub use model::counts::Counts;

// What a search found: no plan, or one, which it wrote on the strip. Both have the counts: a struct would hold a flag beside them.
#[derive(Clone, Copy, PartialEq, Eq, Debug)]
pub enum Outcome {
    NoPlan(Counts),
    Plan(Counts),
}

// Why a search is refused.
#[derive(Clone, Copy, PartialEq, Eq, Debug)]
pub enum Refusal {
    UnknownBooking,
    ShortStrip,
}

impl Refusal {
    pub fn number(self) -> u8
        ensures { result ≡ number self }
    {
        match self {
            Refusal::UnknownBooking => 19,
            Refusal::ShortStrip => 20,
        }
    }
}
