// Reads stored span lists from standard input and writes what listing's writers write of them: two
// lines a record, the text and the words (decimal, one space between). Before that: all bytes quoted,
// and numbers around each power of ten. What is written is compared with that of tools/listing.
#![tactic(auto)]

use card::input::read_full;
use card::stored::Replay;
use expression::parameter::Subexpression;
use json_path::span::{span_at, span_count};
use listing::writer::Writer;
use std::io;
use support::bytes::part;

// How many bytes of input are read.
const LIMIT: usize = 65536;

const ROOM: usize = 8192;

// What is written, on a line.
fn show_line<F: Fn(&mut Writer)>(rt: &impl Print, write: F) -> io::Result<()>
    requires { F.IsAlwaysCallable write }
{
    // Stays: here and below arrays, since there is no heap: memory is fixed, and lent to what fills it.
    let mut out = [0u8; 600];
    let mut w = Writer {
        out: &mut out,
        at: 0,
    };
    write(&mut w);
    let n = w.at;
    rt.write_all(part(&out, 0, n))?;
    rt.write_all(b"\n")
}

// Every byte quoted, and all in one text.
fn show_bytes(rt: &impl Print) -> io::Result<()> {
    let mut all = [0u8; 256];
    for b in 0..256 {
        let text = [b as u8; 1];
        show_line(rt, |w| w.write_quoted(&text))?;
        all[b] = b as u8;
    }
    show_line(rt, |w| w.write_quoted(&all))
}

fn show_decimal(rt: &impl Print, n: usize) -> io::Result<()> {
    show_line(rt, |w| w.write_decimal(n))
}

// One less, the number and one more.
fn show_around(rt: &impl Print, p: usize) -> io::Result<()> {
    show_decimal(rt, p.saturating_sub(1))?;
    show_decimal(rt, p)?;
    show_decimal(rt, p.saturating_add(1))
}

// Each power of ten, and the largest number.
fn show_numbers(rt: &impl Print) -> io::Result<()> {
    for i in 0..20 {
        show_around(rt, 10_usize.saturating_pow(i))?;
    }
    show_decimal(rt, usize::MAX)
}

// What a writer measures over no output, and what it writes.
fn show_written<F: Fn(&mut Writer)>(
    rt: &impl Print,
    k: usize,
    word: &str,
    write: F,
) -> io::Result<()>
    requires { F.IsAlwaysCallable write }
{
    let mut out = [0u8; ROOM];
    let mut none = [0u8; 0];
    let mut measured = Writer {
        out: &mut none,
        at: 0,
    };
    write(&mut measured);
    let m = measured.at;
    let mut written = Writer {
        out: &mut out,
        at: 0,
    };
    write(&mut written);
    let n = written.at;
    println!(rt; "{k} {word} {m}")?;
    rt.write_all(part(&out, 0, n))
}

// The expression behind a tag that has one, or behind a subexpression.
// Stays: `text` and `words` are two parameters, here and below, since the calls take them so: a struct would
// be taken apart at each.
fn show_at(rt: &impl Print, text: &[u8], words: &[u32], k: usize) -> io::Result<()> {
    let s = span_at(words, k);
    if span_count(words) <= k {
        return Ok(());
    }
    let link = Subexpression {
        from: k + 1,
        limit: s.end,
        depth: Subexpression::LIMIT,
    };
    match s.tag {
        5..=18 | 27 => {
            show_written(rt, k, "decorator", |w| {
                w.write_decorator(text, words, link)
            })?;
            show_written(rt, k, "helper", |w| w.write_helper(text, words, link))
        }
        _ => Ok(()),
    }
}

fn show_record(rt: &impl Print, text: &[u8], words: &[u32]) -> io::Result<()> {
    let n = span_count(words);
    println!(rt; "count {n}")?;
    for k in 0..n {
        show_at(rt, text, words, k)?;
    }
    Ok(())
}

fn main(rt: HostRuntime) -> io::Result<()> {
    let mut input = [0u8; LIMIT];
    let n = read_full(&mut rt.stdin(), &mut input)?;
    show_bytes(&rt)?;
    show_numbers(&rt)?;
    let replay = Replay {
        rt: &rt,
        show: |rt, text, words| show_record(rt, text, words),
    };
    replay.run(&input[..n])
}
