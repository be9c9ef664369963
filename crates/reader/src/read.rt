ghost use Rattle.std.specs.Prelude.{◌≡◌};
ghost use Rattle.reader.specs.Formats.{with_place, Took, read_end, read_outline, outline_of};
ghost use Rattle.reader.specs.Reads.{Reads, Accepts};

use crate::conditions;
use crate::cursor::Reader;
use book::book::Book;
use book::outline::Outline;
use faults::{Fault, Record};

impl<'a> Reader<'a> {
    fn end(&mut self) -> Result<(), Fault>
        ensures { Took read_end self.old result self.new }
    {
        if self.pos < self.bytes.len() {
            return Err(Fault::BytesLeft(self.pos));
        }
        Ok(())
    }

    fn outline(&mut self) -> Result<Outline, Fault>
        ensures { Took read_outline self.old result self.new }
    {
        let counts = self.counts()?;
        let ends = self.ends(counts.facts)?;
        let actions = self
            .table(counts.facts, counts.actions)
            .map_err(|(i, e)| Fault::Field(Record::Action(i), e))?;
        let groups = self
            .table(counts.facts, counts.groups)
            .map_err(|(i, e)| Fault::Field(Record::Group(i), e))?;
        let bars = self
            .table(counts.facts, counts.bars)
            .map_err(|(i, e)| Fault::Field(Record::Bar(i), e))?;
        self.end()?;
        Ok(Outline {
            facts: counts.facts,
            initial: ends.initial,
            goal: ends.goal,
            actions,
            groups,
            bars,
        })
    }
}

fn outline(bytes: &[u8]) -> Result<Outline, Fault>
    ensures { result ≡ outline_of bytes.now }
{
    Reader::new(bytes).outline()
}

// The book that the bytes of a file say, or the first fault: fields from front to back, then the conditions on the whole
// book, number by number.
pub fn read(bytes: &[u8]) -> Result<Book, Fault>
    ensures reads { Reads bytes.now result }
    ensures accepts { Accepts bytes.now result }
{
    let outline = outline(bytes)?;
    // No `?`: each finder answers a number, or none where its condition holds, and each number goes into another variant.
    if let Some(a) = conditions::adds_and_deletes(&outline) {
        return Err(Fault::AddsAndDeletes(a));
    }
    if let Some(g) = conditions::shared_group(&outline) {
        return Err(Fault::SharedGroup(g));
    }
    if let Some(g) = conditions::not_one_at_start(&outline) {
        return Err(Fault::NotOneAtStart(g));
    }
    if let Some(a) = conditions::broken_group(&outline) {
        return Err(Fault::BrokenGroup(a));
    }
    if let Some(i) = conditions::bar_at_start(&outline) {
        return Err(Fault::BarAtStart(i));
    }
    Ok(Book { outline })
}
