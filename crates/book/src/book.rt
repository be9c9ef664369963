ghost use Rattle.std.specs.Prelude.{◌≡◌, ◌≤◌, Decides, length};
ghost use Rattle.model.specs.Tasks.{Lawful};
ghost use Rattle.book.specs.Views.{task};

use crate::outline::Outline;
use model::Action;

// A lawful book. Its type carries the limits and the five conditions, so every call that takes a book may rely on them.
#[derive(Clone, Copy)]
pub struct Book {
    pub outline: Outline,
    ghost lawful: { ∥ Lawful (task outline) ∥₁ },
}

impl Book {
    // Nothing but the fact that the book is lawful, for callers' proofs; it costs no time.
    pub fn law(&self)
        ensures lawful { Lawful (task self.now.outline) }
    {}

    pub fn actions(&self) -> &[Action]
        ensures actions { result.now ≡ (task self.now.outline).actions }
        ensures few { length result.now ≤ 64 }
    {
        self.outline.actions.as_slice()
    }

    pub fn groups(&self) -> &[u64]
        ensures groups { result.now ≡ (task self.now.outline).groups }
        ensures few { length result.now ≤ 16 }
    {
        self.outline.groups.as_slice()
    }

    pub fn bars(&self) -> &[u64]
        ensures bars { result.now ≡ (task self.now.outline).bars }
        ensures few { length result.now ≤ 8 }
    {
        self.outline.bars.as_slice()
    }
}

// By hand, since a derived == promises nothing of the task that a book says.
impl PartialEq for Book {
    ghost use Rattle.std.specs.Prelude.{◌≡◌, Decides};
    ghost use Rattle.book.specs.Views.{task};
    ghost use Rattle.model.specs.Same.{same_task};
    ghost use Rattle.book.specs.declared.book.Book.{Book};
    ghost use Rattle.model.proofs.Same.{task_test, same_after};

    ghost eq = { λ x y. same_task (task x.outline) (task y.outline) };

    ghost laws = { same_after task_test (λ (b : Book). task b.outline) };

    fn eq(&self, other: &Book) -> bool
        ensures value { result ≡ same_task (task self.now.outline) (task other.now.outline) }
        ensures decides { Decides result (task self.now.outline ≡ task other.now.outline) }
    {
        self.outline.facts == other.outline.facts
            && self.outline.initial == other.outline.initial
            && self.outline.goal == other.outline.goal
            && self.actions() == other.actions()
            && self.groups() == other.groups()
            && self.bars() == other.bars()
    }
}
