// The program at the bench: book.bin and lines on standard input, one answer a line.
#![tactic(auto)]

use book::book::Book;
use lines::reply::push_reply;
use session::Session;
use std::io::{Read, Write};
use std::{fs, io};

const BLOCK: usize = 4096;

// The bytes of book.bin; a file that cannot be opened counts as empty.
fn book_bytes(rt: &HostRuntime) -> Vec<u8> {
    match fs::read(rt, "book.bin") {
        Ok(bytes) => bytes,
        Err(_) => Vec::new(rt.alloc()),
    }
}

// Answers the whole lines of each block before it waits for the next.
fn serve(rt: &HostRuntime, book: Book) -> io::Result<()> {
    let mut session = Session::new(book);
    let mut input = rt.stdin();
    let mut output = rt.stdout();
    let mut out = String::new(rt.alloc());
    let mut block = [0u8; BLOCK];
    // A count that is never reached: a loop with no end would need a handle to wait.
    for _ in 0..u64::MAX {
        let n = input.read(&mut block)?;
        if n == 0 {
            break;
        }
        session.feed(&block[0..n], &mut out)?;
        output.write_all(out.as_bytes())?;
        output.flush()?;
        out.clear();
    }
    session.finish(&mut out)?;
    output.write_all(out.as_bytes())
}

fn main(rt: HostRuntime) -> io::Result<()> {
    match reader::read::read(book_bytes(&rt).as_slice()) {
        Ok(book) => serve(&rt, book),
        Err(fault) => {
            let mut out = String::new(rt.alloc());
            push_reply(&mut out, session::refused(fault))?;
            rt.stdout().write_all(out.as_bytes())
        }
    }
}
