// Reads a book from the bytes of its file.
#![tactic(auto)]

mod conditions;
mod cursor;
pub mod read;
mod records;
mod tables;
