// Why a call of a card is refused.
ghost use Rattle.std.specs.Prelude.{◌≡◌};
ghost use Rattle.card.specs.Refusals.{number};

#[derive(Clone, Copy, PartialEq, Eq, Debug)]
pub enum Refusal {
    ActionTooHigh,
    RoundTooLate,
    BookedAlready,
    Full,
    NotBooked,
    TooLong,
    Stranded,
}

impl Refusal {
    pub fn number(self) -> u8
        ensures { result ≡ number self }
    {
        match self {
            Refusal::ActionTooHigh => 12,
            Refusal::RoundTooLate => 13,
            Refusal::BookedAlready => 14,
            Refusal::Full => 15,
            Refusal::NotBooked => 16,
            Refusal::TooLong => 17,
            Refusal::Stranded => 18,
        }
    }
}
