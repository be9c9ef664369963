ghost use Rattle.std.specs.Prelude.{◌≡◌};
ghost use Rattle.model.specs.Tasks.{Lawful};
ghost use Rattle.model.specs.Spacing.{LawOfGaps};
ghost use Rattle.book.specs.Views.{task};
ghost use Rattle.londex.specs.Answers.{AnswersDistance, AnswersGap};
ghost use Rattle.londex.specs.Tables.{Charted, Spaced};

use crate::chart::Chart;
use crate::distances::{check_facts, distance_table};
use crate::gaps::check_actions;
use crate::refusal::Refusal;
use crate::table::Table;
use book::book::Book;

// A book with its distances and gaps, worked out once.
#[derive(Clone, Copy)]
pub struct Londex {
    pub book: Book,
    pub distances: Table,
    pub gaps: Table,
    ghost charted: { ∥ Charted (task book.outline) distances.rows ∥₁ },
    ghost spaced: { ∥ Spaced (task book.outline) gaps.rows ∥₁ },
}

impl Londex {
    pub fn new(book: Book) -> Londex
        ensures { result.book ≡ book }
    {
        let distances = distance_table(&book);
        let gaps = Chart::new(&book, &distances).gap_table();
        Londex {
            book,
            distances,
            gaps,
        }
    }

    // Nothing but what the book and the tables hold, for callers' proofs; it costs no time.
    pub fn law(&self)
        ensures lawful { Lawful (task self.now.book.outline) }
        ensures charted { Charted (task self.now.book.outline) self.now.distances.rows }
        ensures spaced { Spaced (task self.now.book.outline) self.now.gaps.rows }
    {
        self.book.law();
    }

    // `distance`, from the table.
    pub fn distance_of(&self, v: u32, w: u32) -> Result<Option<u8>, Refusal>
        ensures { AnswersDistance (task self.now.book.outline) v w result }
    {
        self.law();
        check_facts(&self.book, v, w)?;
        Ok(self.distances.row(v)[w as usize])
    }

    // `gap`, from the table.
    pub fn gap_of(&self, a: u32, b: u32) -> Result<Option<u8>, Refusal>
        ensures answers { AnswersGap (task self.now.book.outline) a b result }
        ensures law { LawOfGaps (task self.now.book.outline) }
    {
        self.law();
        check_actions(&self.book, a, b)?;
        Ok(self.gaps.row(a)[b as usize])
    }
}
