ghost use Rattle.writer.specs.Writes.{Writes, ReadsBack};

use crate::file::file;
use crate::refusal::Refusal;
use crate::sizes::file_length;
use book::book::Book;

// The file of a book into the front of `out`, with its length; nothing where it does not fit.
pub fn write(book: &Book, out: &mut [u8]) -> Result<usize, Refusal>
    ensures writes { Writes book.now.outline out.old result out.new }
    ensures back { ReadsBack book.now.outline result out.new }
{
    let n = file_length(book);
    if out.len() < n {
        return Err(Refusal::TooShort);
    }
    out[..n].copy_from_slice(&file(book));
    Ok(n)
}
