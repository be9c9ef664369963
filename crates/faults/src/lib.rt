// Why a file is no book.
#![tactic(auto)]

ghost use Rattle.std.specs.Prelude.{◌≡◌, Some};
ghost use Rattle.faults.specs.declared.Record.TheVariants.{Head as HEAD};
ghost use Rattle.faults.specs.declared.Fault.TheVariants.{Field as FIELD};
ghost use Rattle.faults.specs.Faults.{field_number, field_byte, fault_number, fault_record, fault_byte, record_text};

use std::fmt;

// A part of the file. The four counts belong to the head, and so do bytes after the end.
#[derive(Clone, Copy, PartialEq, Eq, Debug)]
pub enum Record {
    Head,
    Action(u8),
    Group(u8),
    Bar(u8),
}

impl fmt::Display for Record {
    ghost output = { λ r. Some (record_text r) };

    fn fmt<W: fmt::Write>(&self, f: &mut fmt::Formatter<W>) -> fmt::Result {
        match *self {
            Record::Head => write!(f, "head"),
            Record::Action(i) => write!(f, "action {i}"),
            Record::Group(i) => write!(f, "group {i}"),
            Record::Bar(i) => write!(f, "bar {i}"),
        }
    }
}

// A field that cannot be taken, with its first byte.
#[derive(Clone, Copy, PartialEq, Eq, Debug)]
pub enum FieldFault {
    CutShort(usize),
    OutOfLimits(usize),
    UnknownBit(usize),
    EmptySet(usize),
    UnknownFact(usize),
}

// A field of a record, bytes after the end, or a condition that the whole book breaks.
#[derive(Clone, Copy, PartialEq, Eq, Debug)]
pub enum Fault {
    Field(Record, FieldFault),
    BytesLeft(usize),
    AddsAndDeletes(u8),
    SharedGroup(u8),
    NotOneAtStart(u8),
    BrokenGroup(u8),
    BarAtStart(u8),
}

// A field that stands in no other record is the head's.
impl From<FieldFault> for Fault {
    ghost from_gives = { λ e r. r ≡ FIELD HEAD e };

    fn from(e: FieldFault) -> Fault {
        Fault::Field(Record::Head, e)
    }
}

impl FieldFault {
    pub fn number(self) -> u8
        ensures { result ≡ field_number self }
    {
        match self {
            FieldFault::CutShort(_) => 1,
            FieldFault::OutOfLimits(_) => 2,
            FieldFault::UnknownBit(_) => 3,
            FieldFault::EmptySet(_) => 4,
            FieldFault::UnknownFact(_) => 5,
        }
    }

    pub fn first_byte(self) -> usize
        ensures { result ≡ field_byte self }
    {
        match self {
            FieldFault::CutShort(at)
            | FieldFault::OutOfLimits(at)
            | FieldFault::UnknownBit(at)
            | FieldFault::EmptySet(at)
            | FieldFault::UnknownFact(at) => at,
        }
    }
}

impl Fault {
    pub fn number(self) -> u8
        ensures { result ≡ fault_number self }
    {
        match self {
            Fault::Field(_, fault) => fault.number(),
            Fault::BytesLeft(_) => 6,
            Fault::AddsAndDeletes(_) => 7,
            Fault::SharedGroup(_) => 8,
            Fault::NotOneAtStart(_) => 9,
            Fault::BrokenGroup(_) => 10,
            Fault::BarAtStart(_) => 11,
        }
    }

    pub fn record(self) -> Record
        ensures { result ≡ fault_record self }
    {
        match self {
            Fault::Field(record, _) => record,
            Fault::BytesLeft(_) => Record::Head,
            Fault::AddsAndDeletes(i) | Fault::BrokenGroup(i) => Record::Action(i),
            Fault::SharedGroup(i) | Fault::NotOneAtStart(i) => Record::Group(i),
            Fault::BarAtStart(i) => Record::Bar(i),
        }
    }

    // The first byte of the field at fault; the conditions on the whole book have none.
    pub fn first_byte(self) -> Option<usize>
        ensures { result ≡ fault_byte self }
    {
        match self {
            Fault::Field(_, fault) => Some(fault.first_byte()),
            Fault::BytesLeft(at) => Some(at),
            _ => None,
        }
    }
}
