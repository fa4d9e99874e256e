// Reads stored span lists from standard input and writes what json_path answers of them: two lines
// a record, the text and the words (decimal, one space between). The answers are compared with
// those of tools/paths.
#![tactic(auto)]

use card::input::read_full;
use card::stored::Replay;
use json_path::path::{Path, PathSeg, Relative, next_segment, parse_json_path};
use json_path::span::{Span, escape_at, next_span, skip_to, span_at, span_count};
use std::io;

// How many bytes of input are read.
const LIMIT: usize = 65536;

// The number of a span, or the word that says that there is none.
// Stays: what is fixed goes out by `write_all`, here and below. `print` makes a buffer of 1 KiB for each piece, and long paths took
// a third longer.
fn show_span(rt: &impl Print, span: Option<Span>, none: &[u8]) -> io::Result<()> {
    match span {
        Some(s) => rt.print(s.number),
        None => rt.write_all(none),
    }
}

// The number of the next walked span, or `end`.
fn show_next(rt: &impl Print, words: &[u32], k: usize) -> io::Result<()> {
    show_span(rt, next_span(words, k), b"end")
}

fn show_segment(rt: &impl Print, text: &[u8], segment: PathSeg) -> io::Result<()> {
    match segment {
        PathSeg::Named(name) => {
            rt.write_all(b" seg ")?;
            rt.write_all(name.text(text))
        }
        PathSeg::Root => rt.write_all(b" root"),
        PathSeg::Here => rt.write_all(b" here"),
        PathSeg::Up => rt.write_all(b" up"),
    }
}

// Stays: `text` and `words` are two parameters, here and below, since the calls take them so: a struct would
// be taken apart at each.
fn show_segments(rt: &impl Print, text: &[u8], words: &[u32], path: Relative) -> io::Result<()> {
    let mut rest = path;
    while let Some((segment, after)) = next_segment(text, words, rest) {
        show_segment(rt, text, segment)?;
        rest = after;
    }
    Ok(())
}

// The path of a reference, and the number of the next walked span after it.
fn show_path(
    rt: &impl Print,
    text: &[u8],
    words: &[u32],
    reference: Span,
    at: usize,
) -> io::Result<()> {
    let read = parse_json_path(text, words, reference, at);
    match read.path {
        Path::Relative(p) => {
            rt.write_all(b" path")?;
            show_segments(rt, text, words, p)?;
        }
        Path::Local(p) => {
            print!(rt; " local {} ", p.level)?;
            rt.write_all(p.name.text(text))?;
        }
    }
    rt.write_all(b" raw ")?;
    rt.write_all(read.path.raw(text))?;
    rt.write_all(b" then ")?;
    show_next(rt, words, read.next)
}

// What is answered at number `k`: the span there, the next walked one, the escape, what follows
// the spans up to the span's end, and the path with this span as its reference.
fn show_at(rt: &impl Print, text: &[u8], words: &[u32], k: usize) -> io::Result<()> {
    let s = span_at(words, k);
    print!(rt;
        "span {} tag {} {} {} next ",
        s.number, s.tag, s.start, s.end
    )?;
    show_next(rt, words, k)?;
    rt.write_all(b" escape ")?;
    show_span(rt, escape_at(words, k), b"none")?;
    rt.write_all(b" skip ")?;
    show_next(rt, words, skip_to(words, s.end, k))?;
    show_path(rt, text, words, s, k.saturating_add(1))?;
    rt.write_all(b"\n")
}

// Every number up to two past the last span, and the largest of all.
fn show_record(rt: &impl Print, text: &[u8], words: &[u32]) -> io::Result<()> {
    let n = span_count(words);
    println!(rt; "count {n}")?;
    for k in 0..n + 2 {
        show_at(rt, text, words, k)?;
    }
    show_at(rt, text, words, usize::MAX)
}

// Stays: the lines of `replay_expressions`, since what the two share is `read_full` and `Replay`. The input is
// an array that is lent, since there is no heap.
fn main(rt: HostRuntime) -> io::Result<()> {
    let mut input = [0u8; LIMIT];
    let n = read_full(&mut rt.stdin(), &mut input)?;
    let replay = Replay {
        rt: &rt,
        show: |rt, text, words| show_record(rt, text, words),
    };
    replay.run(&input[..n])
}
