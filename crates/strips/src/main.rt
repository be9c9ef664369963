// Lawful rounds of the sample book in order, and strips that are checked: one line each.
#![tactic(auto)]

use book::book::Book;
use card::Card;
use plan_check::check;
use reader::read::read;
use rounds::finder::round_after;
use rounds::masks::Masks;
use std::{fs, io, iter};

// The first lawful rounds at the state, in order; the sample book has fewer at each. No iter::successors: it would look for the next
// round before this one is printed, and for one that is not.
fn show_rounds(rt: &HostRuntime, masks: &Masks, state: u64) -> io::Result<()> {
    print!(rt; "rounds at {state}:")?;
    let mut last = None;
    let rounds = iter::from_fn(|| {
        last = round_after(masks, state, 0, last);
        last
    });
    for round in rounds.take(64) {
        print!(rt; " {round}")?;
    }
    println!(rt; "")
}

fn show_check(rt: &HostRuntime, book: &Book, card: &Card, strip: &[u64]) -> io::Result<()> {
    match check(book, card, strip) {
        Ok(()) => println!(rt; "ok"),
        Err(flaw) => println!(rt; "{flaw}"),
    }
}

// Each number once, in its order, on a card of five rounds; the last strip has several flaws.
fn show_flaws(rt: &HostRuntime, book: &Book, card: &Card) -> io::Result<()> {
    show_check(rt, book, card, &[1, 4, 8, 2, 64])?;
    show_check(rt, book, card, &[1, 4, 8, 2])?;
    show_check(rt, book, card, &[1, 4, 8, 2, 192])?;
    show_check(rt, book, card, &[2, 4, 8, 2, 64])?;
    show_check(rt, book, card, &[1, 6, 8, 2, 64])?;
    show_check(rt, book, card, &[1, 20, 8, 2, 64])?;
    show_check(rt, book, card, &[1, 4, 8, 2, 0])?;
    show_check(rt, book, card, &[1, 134, 8, 2, 64])
}

fn show_booked(rt: &HostRuntime, book: &Book, card: &mut Card) -> io::Result<()> {
    let _ = card.book(4, 2);
    show_check(rt, book, card, &[1, 4, 8, 2, 64])?;
    let _ = card.stretch(6);
    show_check(rt, book, card, &[1, 4, 24, 32, 2, 64])
}

fn show_all(rt: &HostRuntime, book: Book) -> io::Result<()> {
    let masks = Masks::new(book);
    show_rounds(rt, &masks, book.outline.initial)?;
    show_rounds(rt, &masks, 38)?;
    let mut card = Card::new();
    let _ = card.stretch(5);
    show_flaws(rt, &book, &card)?;
    show_booked(rt, &book, &mut card)
}

fn main(rt: HostRuntime) -> io::Result<()> {
    let bytes = fs::read(&rt, "book.bin")?;
    match read(bytes.as_slice()) {
        Ok(book) => show_all(&rt, book),
        Err(_) => println!(rt; "no book"),
    }
}
