// Worked facts of the sample book, of the definitions themselves: a check that the definitions say what they are meant to.
#![tactic(auto)]

ghost use Rattle.worked.specs.Sample.{Worked};

// One combined check, proved by computing.
pub fn worked_facts()
    ensures { Worked }
{}
