use card::Card;
use londex::londex::Londex;

mod late;
mod near;

// What is due from the round t on: by the card, and the distances and gaps of a book.
#[derive(Clone, Copy)]
pub(crate) struct Outlook<'a> {
    pub(crate) londex: &'a Londex,
    pub(crate) card: &'a Card,
    pub(crate) t: u8,
}
