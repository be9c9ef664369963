ghost use Rattle.std.specs.Prelude.{◌≡◌, Some};
ghost use Rattle.plan_check.specs.Flaws.{flaw_number, flaw_round};
ghost use Rattle.plan_check.specs.Texts.{told};

use std::fmt;

// Why a strip is no plan. Each case has the round at fault, and the lowest action, pair or bar.
#[derive(Clone, Copy, PartialEq, Eq, Debug)]
pub enum Flaw {
    StripLength,
    UnknownAction(u8, u8),
    MissingBooking(u8, u8),
    UnmetNeed(u8, u8),
    Disturbance(u8, u8, u8),
    BarAfter(u8, u8),
    GoalMissed(u8),
}

impl Flaw {
    pub fn number(self) -> u8
        ensures { result ≡ flaw_number self }
    {
        match self {
            Flaw::StripLength => 23,
            Flaw::UnknownAction(_, _) => 24,
            Flaw::MissingBooking(_, _) => 25,
            Flaw::UnmetNeed(_, _) => 26,
            Flaw::Disturbance(_, _, _) => 27,
            Flaw::BarAfter(_, _) => 28,
            Flaw::GoalMissed(_) => 29,
        }
    }

    // The round that the flaw names; 0 where the length is wrong.
    pub fn round(self) -> u8
        ensures { result ≡ flaw_round self }
    {
        match self {
            Flaw::StripLength => 0,
            Flaw::UnknownAction(t, _)
            | Flaw::MissingBooking(t, _)
            | Flaw::UnmetNeed(t, _)
            | Flaw::Disturbance(t, _, _)
            | Flaw::BarAfter(t, _)
            | Flaw::GoalMissed(t) => t,
        }
    }
}

impl fmt::Display for Flaw {
    ghost output = { λ f. Some (told f) };

    fn fmt<W: fmt::Write>(&self, f: &mut fmt::Formatter<W>) -> fmt::Result {
        write!(f, "no {}", self.number())?;
        match self {
            Flaw::StripLength => Ok(()),
            Flaw::UnknownAction(t, a) | Flaw::MissingBooking(t, a) | Flaw::UnmetNeed(t, a) => {
                write!(f, " round {t} action {a}")
            }
            Flaw::Disturbance(t, a, c) => write!(f, " round {t} actions {a} {c}"),
            Flaw::BarAfter(t, i) => write!(f, " round {t} bar {i}"),
            Flaw::GoalMissed(t) => write!(f, " round {t}"),
        }
    }
}
