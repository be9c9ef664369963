ghost use Rattle.std.specs.Prelude.{◌≡◌};
ghost use Rattle.londex.specs.Answers.{number};

// Why a question is not answered.
#[derive(Clone, Copy, PartialEq, Eq, Debug)]
pub enum Refusal {
    UnknownNumber,
    NoCommonGroup,
}

impl Refusal {
    pub fn number(self) -> u8
        ensures { result ≡ number self }
    {
        match self {
            Refusal::UnknownNumber => 21,
            Refusal::NoCommonGroup => 22,
        }
    }
}
