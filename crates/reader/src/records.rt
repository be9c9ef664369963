// The readers of records, each a list of fields.
ghost use Rattle.reader.specs.Formats.{Took, read_counts, read_ends, read_action};

use crate::cursor::Reader;
use faults::FieldFault;
use model::Action;

// How many of each a book has.
#[derive(Clone, Copy)]
pub struct Counts {
    pub facts: u8,
    pub actions: u8,
    pub groups: u8,
    pub bars: u8,
}

// Where a plan starts, and what it is to reach.
#[derive(Clone, Copy)]
pub struct Ends {
    pub initial: u64,
    pub goal: u64,
}

impl<'a> Reader<'a> {
    pub fn counts(&mut self) -> Result<Counts, FieldFault>
        ensures { Took read_counts self.old result self.new }
    {
        let facts = self.count(1, 64)?;
        let actions = self.count(0, 64)?;
        let groups = self.count(0, 16)?;
        let bars = self.count(0, 8)?;
        Ok(Counts {
            facts,
            actions,
            groups,
            bars,
        })
    }

    pub fn ends(&mut self, facts: u8) -> Result<Ends, FieldFault>
        ensures { Took (read_ends facts) self.old result self.new }
    {
        let map = self.map(4)?;
        let initial = self.optional(map % 2 == 1, facts)?;
        let goal = self.optional(map / 2 == 1, facts)?;
        Ok(Ends { initial, goal })
    }

    pub fn action(&mut self, facts: u8) -> Result<Action, FieldFault>
        ensures { Took (read_action facts) self.old result self.new }
    {
        let map = self.map(8)?;
        let needs = self.optional(map % 2 == 1, facts)?;
        let adds = self.optional(map / 2 % 2 == 1, facts)?;
        let deletes = self.optional(map / 4 == 1, facts)?;
        Ok(Action {
            needs,
            adds,
            deletes,
        })
    }
}
