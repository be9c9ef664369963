// Searches through piles of sieves, written as a caller would write them.
#![tactic(auto)]

#[cfg(test)]
mod tests {
    use book::book::Book;
    use card::Card;
    use lookahead::gap::Gap;
    use lookahead::goal::Goal;
    use memory::memory::Memory;
    use plan_check::check;
    use reader::read::read;
    use search::outcome::{Outcome, Refusal};
    use search::search::search;
    use sieve::open::Open;
    use sieve::pair::Pair;
    use sieve::sieve::Sieve;
    use std::test::Fail;

    // A book with 8 facts, 7 actions, 3 groups and a bar: a record to a line.
    const SAMPLE: &[u8] = b"\
        \x08\x07\x03\x01\
        \x03\x25\0\0\0\0\0\0\0\x91\0\0\0\0\0\0\0\
        \x07\x01\0\0\0\0\0\0\0\x02\0\0\0\0\0\0\0\x01\0\0\0\0\0\0\0\
        \x07\x02\0\0\0\0\0\0\0\x01\0\0\0\0\0\0\0\x02\0\0\0\0\0\0\0\
        \x07\x06\0\0\0\0\0\0\0\x08\0\0\0\0\0\0\0\x04\0\0\0\0\0\0\0\
        \x07\x0a\0\0\0\0\0\0\0\x10\0\0\0\0\0\0\0\x08\0\0\0\0\0\0\0\
        \x07\x22\0\0\0\0\0\0\0\x40\0\0\0\0\0\0\0\x20\0\0\0\0\0\0\0\
        \x07\x42\0\0\0\0\0\0\0\x20\0\0\0\0\0\0\0\x40\0\0\0\0\0\0\0\
        \x03\x31\0\0\0\0\0\0\0\x80\0\0\0\0\0\0\0\
        \x03\0\0\0\0\0\0\0\x1c\0\0\0\0\0\0\0\x60\0\0\0\0\0\0\0\
        \x48\0\0\0\0\0\0\0";

    // The strip of the plan that the search through the sieve finds, where it finds one.
    fn strip<S: Sieve + Drop>(
        book: &Book,
        card: &Card,
        sieve: S,
    ) -> Result<Option<[u64; 6]>, Refusal> {
        let mut used = sieve;
        let mut strip = [0; 6];
        match search(book, card, &mut used, &mut strip)? {
            Outcome::Plan(_) => Ok(Some(strip)),
            Outcome::NoPlan(_) => Ok(None),
        }
    }

    // One memory, whose second search keeps what the first told it.
    fn twice(book: &Book, card: &Card) -> Result<Outcome, Refusal> {
        let mut sieve = Memory::new(Pair::new(Gap::new(), Goal::new()));
        let mut strip = [0; 6];
        search(book, card, &mut sieve, &mut strip)?;
        search(book, card, &mut sieve, &mut strip)
    }

    #[test]
    fn piles_find_one_plan(rt: HostRuntime) -> Result<(), Fail> {
        let book = read(SAMPLE)?;
        let mut card = Card::new();
        card.stretch(6)?;
        card.book(4, 2)?;
        let plain = strip(&book, &card, Open::new())?.expect(&rt, "a plan");
        assert_eq!(rt; check(&book, &card, &plain), Ok(()));
        let pair = Pair::new(Gap::new(), Goal::new());
        assert_eq!(rt; strip(&book, &card, pair)?, Some(plain));
        let told = Memory::new(Open::new());
        assert_eq!(rt; strip(&book, &card, told)?, Some(plain));
        let both = Memory::new(Pair::new(Gap::new(), Goal::new()));
        assert_eq!(rt; strip(&book, &card, both)?, Some(plain));
        let over = Pair::new(Memory::new(Gap::new()), Open::new());
        assert_eq!(rt; strip(&book, &card, over)?, Some(plain));
        Ok(())
    }

    #[test]
    fn none_stays_none(rt: HostRuntime) -> Result<(), Fail> {
        let book = read(SAMPLE)?;
        let mut card = Card::new();
        card.stretch(4)?;
        assert_eq!(rt; strip(&book, &card, Memory::new(Open::new()))?, None);
        match twice(&book, &card) {
            Ok(Outcome::NoPlan(counts)) => assert_eq!(rt; counts.opened, 0),
            _ => panic!(rt; "a plan of four rounds"),
        }
        Ok(())
    }
}
