ghost use Rattle.std.specs.Prelude.{◌≡◌};
ghost use Rattle.session.specs.Refusals.{number};

use lines::command::NotACommand;
use londex::refusal as question;

// Why a line is answered by a number: it writes no command, or its question has no answer.
#[derive(Clone, Copy, PartialEq, Eq, Debug)]
pub enum Refusal {
    Line(NotACommand),
    Question(question::Refusal),
}

impl From<NotACommand> for Refusal {
    ghost use Rattle.session.specs.declared.refusal.Refusal.TheVariants.{Line};

    ghost from_gives = { λ e r. r ≡ Line e };

    fn from(e: NotACommand) -> Refusal {
        Refusal::Line(e)
    }
}

impl From<question::Refusal> for Refusal {
    ghost use Rattle.session.specs.declared.refusal.Refusal.TheVariants.{Question};

    ghost from_gives = { λ e r. r ≡ Question e };

    fn from(e: question::Refusal) -> Refusal {
        Refusal::Question(e)
    }
}

impl Refusal {
    pub fn number(self) -> u8
        ensures { result ≡ number self }
    {
        match self {
            Refusal::Line(e) => e.number(),
            Refusal::Question(e) => e.number(),
        }
    }
}
