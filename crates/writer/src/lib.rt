// Writes a book as the bytes of its file.
#![tactic(auto)]

mod fields;
mod file;
mod records;
pub mod refusal;
pub mod sizes;
#[cfg(test)]
mod tests;
pub mod write;
