use crate::refusal::Refusal;
use crate::write::write;
use reader::read::read;
use std::test::Fail;

// A book with 8 facts, 7 actions, 3 groups and a bar: a record to a line.
const SAMPLE: &[u8] = b"\
        \x08\x07\x03\x01\
        \x03\x25\0\0\0\0\0\0\0\x91\0\0\0\0\0\0\0\
        \x07\x01\0\0\0\0\0\0\0\x02\0\0\0\0\0\0\0\x01\0\0\0\0\0\0\0\
        \x07\x02\0\0\0\0\0\0\0\x01\0\0\0\0\0\0\0\x02\0\0\0\0\0\0\0\
        \x07\x06\0\0\0\0\0\0\0\x08\0\0\0\0\0\0\0\x04\0\0\0\0\0\0\0\
        \x07\x0a\0\0\0\0\0\0\0\x10\0\0\0\0\0\0\0\x08\0\0\0\0\0\0\0\
        \x07\x22\0\0\0\0\0\0\0\x40\0\0\0\0\0\0\0\x20\0\0\0\0\0\0\0\
        \x07\x42\0\0\0\0\0\0\0\x20\0\0\0\0\0\0\0\x40\0\0\0\0\0\0\0\
        \x03\x31\0\0\0\0\0\0\0\x80\0\0\0\0\0\0\0\
        \x03\0\0\0\0\0\0\0\x1c\0\0\0\0\0\0\0\x60\0\0\0\0\0\0\0\
        \x48\0\0\0\0\0\0\0";

#[test]
fn sample_comes_back(rt: HostRuntime) -> Result<(), Fail> {
    let book = read(SAMPLE)?;
    let mut out = [0xee; 224];
    let n = write(&book, &mut out)?;
    assert!(rt; n == 220);
    assert_eq!(rt; &out[..n], SAMPLE);
    assert_eq!(rt; &out[n..], [0xee; 4].as_slice());
    let again = read(&out[..n])?;
    assert_eq!(rt; again.bars(), book.bars());
    let mut short = [0; 219];
    assert_eq!(rt; write(&book, &mut short), Err(Refusal::TooShort));
    Ok(())
}
