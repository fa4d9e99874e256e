// Byte strings from standard input, well formed or not: a record is one byte for its length, and
// then its bytes.
use crate::fold::{fold, fold_bytes};
use crate::text::Text;
use std::io::{self, Bytes, Read};
use support::bytes::part;
use support::utf8::{is_char_boundary, valid_up_to};

// Reads a record's bytes. An end of the input takes the place of a byte and is read past, since a
// terminal gives more after one.
fn read_text<R: Read + Drop>(bytes: &mut Bytes<R>, size: u8) -> io::Result<Text> {
    let mut text = Text::new();
    for _ in 0..size {
        if let Some(b) = bytes.next() {
            text.push(b?);
        }
    }
    Ok(text)
}

// Whether a character starts or the text ends, at each offset from two past the end down.
fn fold_boundaries(h: u64, s: &[u8]) -> u64 {
    (0..s.len() + 3)
        .rev()
        .fold(h, |g, at| fold(g, is_char_boundary(s, at)))
}

// Writes what is found of one record.
fn report_record(rt: &impl Print, s: &[u8]) -> io::Result<()> {
    let valid = valid_up_to(s);
    let h = fold_boundaries(fold_bytes(0, s), part(s, 0, valid));
    println!(rt; "{valid} {h:08x}")
}

pub fn report<R: Read + Drop>(rt: &impl Print, input: R) -> io::Result<()> {
    println!(rt; "records: valid length, boundaries")?;
    let mut bytes = input.bytes();
    // Stays: the turns are counted. A measure was tried, but where a record ends early, the contract
    // of `next` does not say that `bytes` has no more to give.
    for _ in 0..u64::MAX {
        let Some(size) = bytes.next() else {
            break;
        };
        let text = read_text(&mut bytes, size?)?;
        report_record(rt, text.as_slice())?;
    }
    Ok(())
}
