// The readers of tables, each a count of records of one kind.
ghost use Rattle.std.specs.Prelude.{ℕ, ◌≤◌, List};
ghost use Rattle.faults.specs.declared.FieldFault.{FieldFault};
ghost use Rattle.reader.specs.Formats.{Read, Took, read_action, read_set, read_many};

use crate::cursor::Reader;
use faults::FieldFault;
use few::blank::Blank;
use few::few::Few;
use model::Action;

// A kind of record that stands in a table.
pub trait Row: Blank {
    ghost format: { ℕ → List ℕ → ℕ → Read Self FieldFault };

    fn row(reader: &mut Reader, facts: u8) -> Result<Self, FieldFault>
        ensures { Took (format facts) reader.old result reader.new };
}

impl Row for Action {
    ghost format = { read_action };

    fn row(reader: &mut Reader, facts: u8) -> Result<Action, FieldFault> {
        reader.action(facts)
    }
}

impl Row for u64 {
    ghost format = { read_set };

    fn row(reader: &mut Reader, facts: u8) -> Result<u64, FieldFault> {
        reader.set(facts)
    }
}

impl<'a> Reader<'a> {
    // A fault comes with the number of its record.
    pub fn table<T: Row, const N: usize>(
        &mut self,
        facts: u8,
        count: u8,
    ) -> Result<Few<T, N>, (u8, FieldFault)>
        requires { count ≤ N }
        ensures { Took (read_many (T.format facts) count 0) self.old result self.new }
    {
        let mut rows = Few::new();
        // The number is the record's, for a fault; nothing is indexed by it.
        for i in 0..count {
            let row = T::row(self, facts).map_err(|e| (i, e))?;
            rows.push(row);
        }
        Ok(rows)
    }
}
