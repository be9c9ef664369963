// Reads books that are written in hexadecimal, one on a line of standard input, and says what the reader makes of each:
// `ok` with the numbers of facts, actions, groups and bars, and whether the book is written back as the same bytes and a
// buffer that is too short is left alone; or `no` with the fault's number, its record and its first byte.
#![tactic(auto)]

use book::book::Book;
use faults::Fault;
use reader::read::read;
use std::alloc::{AllocError, Global};
use std::io;
use writer::sizes::{LONGEST, file_length};
use writer::write::write;

// What the buffers are filled with.
const UNTOUCHED: u8 = 0xee;

// By hand, since the library's decoder refuses a digit that this program reads as 0.
fn digit(b: u8) -> u8 {
    match b {
        b'0'..=b'9' => b - b'0',
        b'a'..=b'f' => b - b'a' + 10,
        _ => 0,
    }
}

// The bytes that pairs of digits write.
fn decoded(heap: Global, text: &str) -> Result<Vec<u8>, AllocError> {
    text.as_bytes()
        .chunks_exact(2)
        .map(|pair| digit(pair[0]).wrapping_mul(16).wrapping_add(digit(pair[1])))
        .collect(heap)
}

// Whether the book is written back as the bytes that it was read from, and no byte past them.
fn comes_back(book: &Book, bytes: &[u8]) -> bool {
    let mut out = [UNTOUCHED; LONGEST + 1];
    match write(book, &mut out) {
        Ok(n) => n < LONGEST + 1 && &out[0..n] == bytes && out[n] == UNTOUCHED,
        Err(_) => false,
    }
}

// Whether a buffer one byte too short is refused by its number and left alone.
fn leaves_short(book: &Book) -> bool {
    let mut out = [UNTOUCHED; LONGEST];
    let n = file_length(book);
    if n == 0 || n > LONGEST {
        return false;
    }
    match write(book, &mut out[0..n - 1]) {
        Ok(_) => false,
        Err(refusal) => refusal.number() == 31 && out == [UNTOUCHED; LONGEST],
    }
}

fn show_book(rt: &HostRuntime, book: &Book, bytes: &[u8]) -> io::Result<()> {
    let facts = book.outline.facts;
    let actions = book.actions().len();
    let groups = book.groups().len();
    let bars = book.bars().len();
    let back = comes_back(book, bytes);
    let short = leaves_short(book);
    println!(rt; "ok {facts} {actions} {groups} {bars} back {back} short {short}")
}

fn show_fault(rt: &HostRuntime, fault: Fault) -> io::Result<()> {
    let number = fault.number();
    let record = fault.record();
    match fault.first_byte() {
        Some(at) => println!(rt; "no {number} {record} at {at}"),
        None => println!(rt; "no {number} {record}"),
    }
}

fn main(rt: HostRuntime) -> io::Result<()> {
    for line in rt.lines(rt.alloc()) {
        let text = line?;
        let bytes = decoded(rt.alloc(), text.as_str())?;
        match read(bytes.as_slice()) {
            Ok(book) => show_book(&rt, &book, bytes.as_slice())?,
            Err(fault) => show_fault(&rt, fault)?,
        }
    }
    Ok(())
}
