ghost use Rattle.std.specs.Prelude.{◌≡◌};
ghost use Rattle.model.specs.Sieves.{Rules, Law, MayTell};
ghost use Rattle.sieve.specs.Subjects.{subject_of};

use book::book::Book;
use card::Card;
use model::Standing;

// A sieve means a subject, a book with a card, and the standings and starts that it drops. A standing is a state with one
// fact of each group and a round t; a start is a standing with a lawful round there. What is dropped is hopeless: nothing
// leads from there to the goal and holds the bookings on the way. No call refuses, and none allocates.
pub trait Sieve {
    ghost Meaning: { Type 0 };

    ghost meaning: { Self → Meaning };

    // What begin and told make of a meaning, and what it drops.
    ghost rules: { Rules Meaning };

    // What every sieve of the kind is.
    ghost whole: { Meaning → Type 0 };

    // What begin leaves and told keeps.
    ghost kept: { Meaning → Type 0 };

    // Makes book and card the subject: two arguments, as a search is handed them. A `Seen` owns copies of both, and is made where a
    // sieve keeps them.
    fn begin(&mut self, book: &Book, card: &Card)
        ensures { meaning self.new ≡ rules.begun (meaning self.old) (subject_of book.now card.now) };

    // The standing question.
    fn drops_standing(&self, at: Standing) -> bool
        ensures { result ≡ rules.drops_standing (meaning self.now) at.state at.t };

    // The start question.
    fn drops_start(&self, at: Standing, round: u64) -> bool
        ensures { result ≡ rules.drops_start (meaning self.now) at.state at.t round };

    // Hands over a standing that was found hopeless.
    fn told(&mut self, at: Standing)
        requires { MayTell rules kept (meaning self.old) at.state at.t }
        ensures { meaning self.new ≡ rules.told (meaning self.old) at.state at.t };

    ghost stands: { (s : Self) → whole (meaning s) };

    ghost keeps: { Law rules whole kept };
}
