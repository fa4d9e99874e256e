// Runs stored texts. Standard input holds records: a letter, `l` for a literal's text or `q` for the
// inner text of single quotes; the text's length, one byte; the text. For each it writes a line: the
// verdict, `v`, `i` or `o`, and for `q` a space and the rewritten text.
#![tactic(auto)]

ghost use Rattle.std.specs.Prelude.{◌<◌};

use card::input::read_full;
use literal::check::{LiteralError, check_literal, check_quoted};
use literal::requote::{Place, next_quoted};
use std::io::{self, Read};

// Stays: `Result` and `LiteralError` are types of other crates, so that no `Display` can be written here.
fn verdict(v: Result<(), LiteralError>) -> &'static str {
    match v {
        Ok(()) => "v",
        Err(LiteralError::Invalid) => "i",
        Err(LiteralError::OverLimit) => "o",
    }
}

fn write_rewritten(rt: &impl Print, inner: &[u8]) -> io::Result<()> {
    let mut place = Place::Opening;
    while let Some((b, behind)) = next_quoted(inner, place) {
        rt.write_all(&[b])?;
        place = behind;
    }
    Ok(())
}

// Stays: `kind` is the record's letter, and this is the one match over it.
fn answer(rt: &impl Print, kind: u8, text: &[u8]) -> io::Result<()> {
    match kind {
        b'q' => {
            print!(rt; "{} ", verdict(check_quoted(text)))?;
            write_rewritten(rt, text)?;
        }
        _ => rt.print(verdict(check_literal(text)))?,
    }
    rt.write_all(b"\n")
}

// The text of a record, which it reads into `text`.
fn replay_text(
    rt: &impl Print,
    input: &mut impl Read,
    kind: u8,
    text: &mut [u8],
) -> io::Result<()> {
    read_full(input, text)?;
    answer(rt, kind, text)
}

// One record, if one is left.
fn replay_one(rt: &impl Print, input: &mut impl Read) -> io::Result<bool> {
    // Stays: arrays, since there is no heap: memory is fixed, and lent to what fills it.
    let mut head = [0u8; 2];
    let got = read_full(input, &mut head)?;
    if got < 2 {
        return Ok(false);
    }
    let [kind, length] = head;
    let mut text = [0u8; 256];
    replay_text(rt, input, kind, &mut text[..length as usize])?;
    Ok(true)
}

// A proved loop has to end, and nothing says that the input does: so the turns are counted.
fn main(rt: HostRuntime) -> io::Result<()> {
    let mut input = rt.stdin();
    for _ in 0..u64::MAX {
        if !replay_one(&rt, &mut input)? {
            break;
        }
    }
    Ok(())
}
