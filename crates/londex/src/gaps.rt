ghost use Rattle.std.specs.Prelude.{ℕ, ◌<◌};
ghost use Rattle.model.specs.Spacing.{LawOfGaps};
ghost use Rattle.book.specs.Views.{task};
ghost use Rattle.londex.specs.Answers.{AnswersGap, ChecksActions};

use crate::chart::Chart;
use crate::distances::distance_table;
use crate::refusal::Refusal;
use book::book::Book;

// Refuses two actions that have no gap.
pub(crate) fn check_actions(book: &Book, a: u32, b: u32) -> Result<(), Refusal>
    ensures { ChecksActions (task book.now.outline) a b result }
{
    let actions = book.actions().len() as u32;
    if a >= actions || b >= actions {
        return Err(Refusal::UnknownNumber);
    }
    Ok(())
}

// One more than the greatest number of rounds that may not lie from the action a to the action b: 0 if none is
// forbidden, None if there is no greatest. In lawful rounds no two steps stand closer.
pub fn gap(book: &Book, a: u32, b: u32) -> Result<Option<u8>, Refusal>
    ensures answers { AnswersGap (task book.now.outline) a b result }
    ensures law { LawOfGaps (task book.now.outline) }
{
    book.law();
    check_actions(book, a, b)?;
    let distances = distance_table(book);
    let chart = Chart::new(book, &distances);
    Ok(chart.gaps_from(a as usize)[b as usize])
}
