// Reads stored span lists from standard input and writes what expression answers of them: two lines a
// record, the text and the words (decimal, one space between). The answers are compared with those of
// tools/expressions.
#![tactic(auto)]

use card::input::read_full;
use card::stored::Replay;
use expression::again::{enter, next_key, next_param};
use expression::parameter::{
    BlockParam, ExpressionSpec, Fault, Hash, Parameter, Parts, Subexpression,
};
use expression::parse::{
    parse_block_param, parse_expression, parse_hash, parse_name, parse_param, parse_subexpression,
    parse_tilde,
};
use json_path::path::{Name, Path};
use json_path::span::{next_span, span_at, span_count};
use std::io;

// How many bytes of input are read.
const LIMIT: usize = 65536;

// The number of the next walked span, or `end`.
// Stays: what is fixed goes out by `write_all`, here and below. `print` makes a buffer of 1 KiB for each piece, and many
// parameters took a third longer.
fn show_then(rt: &impl Print, words: &[u32], k: usize) -> io::Result<()> {
    match next_span(words, k) {
        Some(s) => print!(rt; " then {}", s.number),
        None => rt.write_all(b" then end"),
    }
}

// Stays: `Fault` is a type of another crate, so that no `Display` can be written here.
fn show_fault(rt: &impl Print, f: Fault) -> io::Result<()> {
    match f {
        Fault::Ended => rt.write_all(b" ended"),
        Fault::NotAllowed => rt.write_all(b" not-allowed"),
        Fault::InvalidLiteral => rt.write_all(b" invalid"),
        Fault::OverLimit => rt.write_all(b" over"),
    }
}

fn show_name(rt: &impl Print, text: &[u8], name: Name) -> io::Result<()> {
    rt.write_all(b" <")?;
    rt.write_all(name.text(text))?;
    rt.write_all(b">")
}

// The name that a parameter gives.
fn show_as_name(rt: &impl Print, text: &[u8], p: Parameter) -> io::Result<()> {
    match p.as_name() {
        Some(name) => show_name(rt, text, name),
        None => rt.write_all(b" nameless"),
    }
}

fn show_path(rt: &impl Print, text: &[u8], path: Path) -> io::Result<()> {
    match path {
        Path::Relative(_) => rt.write_all(b" path <")?,
        Path::Local(p) => print!(rt; " local {} <", p.level)?,
    }
    rt.write_all(path.raw(text))?;
    rt.write_all(b">")
}

// A subexpression is shown by its link: what it holds stands in the line of its tag.
fn show_parameter(rt: &impl Print, text: &[u8], p: Parameter) -> io::Result<()> {
    match p {
        Parameter::Name(name) => {
            rt.write_all(b" name")?;
            show_name(rt, text, name)
        }
        Parameter::Path(path) => show_path(rt, text, path),
        Parameter::Literal(l) => {
            print!(rt; " literal {}", u8::from(l.quoted))?;
            show_name(rt, text, l.kept)
        }
        Parameter::Subexpression(s) => print!(rt; " sub {} {}", s.limit, s.depth),
    }
}

fn show_hash(rt: &impl Print, text: &[u8], h: Hash) -> io::Result<()> {
    show_name(rt, text, h.key)?;
    show_parameter(rt, text, h.value)
}

fn show_block_param(rt: &impl Print, text: &[u8], block: BlockParam) -> io::Result<()> {
    match block {
        BlockParam::Single(a) => show_name(rt, text, a),
        BlockParam::Pair(a, b) => {
            show_name(rt, text, a)?;
            show_name(rt, text, b)
        }
    }
}

// What a reader read and the number of the next span, or its fault.
fn show_read<T: Copy, F: Fn(T) -> io::Result<()>>(
    rt: &impl Print,
    words: &[u32],
    r: Result<(T, usize), Fault>,
    show_value: F,
) -> io::Result<()>
    requires { F.IsAlwaysCallable show_value }
{
    match r {
        Ok((x, next)) => {
            show_value(x)?;
            show_then(rt, words, next)
        }
        Err(f) => show_fault(rt, f),
    }
}

// The parameters in order.
// Stays: `text` and `words` are two parameters, here and below, since the calls take them so: a struct would
// be taken apart at each.
// Stays: `loop`. A `while let` would lose the fault that the parameters may end with.
fn show_params(rt: &impl Print, text: &[u8], words: &[u32], parts: Parts) -> io::Result<()> {
    let mut rest = parts;
    loop {
        match next_param(text, words, rest) {
            Ok(Some((v, after))) => {
                rt.write_all(b" param")?;
                show_parameter(rt, text, v)?;
                rest = after;
            }
            Ok(None) => return Ok(()),
            Err(f) => return show_fault(rt, f),
        }
    }
}

// The keys in byte order, at most as many as there are spans.
fn show_keys(rt: &impl Print, text: &[u8], words: &[u32], parts: Parts) -> io::Result<()> {
    let mut bound = None;
    for _ in 0..span_count(words) {
        match next_key(text, words, parts, bound) {
            Ok(Some(h)) => {
                rt.write_all(b" key")?;
                show_hash(rt, text, h)?;
                bound = Some(h.key);
            }
            Ok(None) => return Ok(()),
            Err(f) => return show_fault(rt, f),
        }
    }
    Ok(())
}

fn show_expression(
    rt: &impl Print,
    text: &[u8],
    words: &[u32],
    x: ExpressionSpec,
) -> io::Result<()> {
    print!(rt; " {}", u8::from(x.omit_pre_ws))?;
    show_parameter(rt, text, x.name)?;
    show_as_name(rt, text, x.name)?;
    show_params(rt, text, words, x.parts)?;
    show_keys(rt, text, words, x.parts)?;
    rt.write_all(b" as")?;
    match x.block_param {
        Some(block) => show_block_param(rt, text, block)?,
        None => rt.write_all(b" none")?,
    }
    print!(rt; " {}", u8::from(x.omit_pro_ws))?;
    show_then(rt, words, x.next)
}

fn show_expression_read(
    rt: &impl Print,
    text: &[u8],
    words: &[u32],
    r: Result<ExpressionSpec, Fault>,
) -> io::Result<()> {
    match r {
        Ok(x) => show_expression(rt, text, words, x),
        Err(f) => show_fault(rt, f),
    }
}

// What each reader answers behind number `k`, up to the end of the span there.
fn show_at(rt: &impl Print, text: &[u8], words: &[u32], k: usize, depth: usize) -> io::Result<()> {
    let s = span_at(words, k);
    let at = k.saturating_add(1);
    print!(rt; "{k} tilde")?;
    show_read(rt, words, parse_tilde(words, at), |left| {
        print!(rt; " {}", u8::from(left))
    })?;
    rt.write_all(b" | block")?;
    let block = parse_block_param(words, at, s.end);
    show_read(rt, words, block, |b| show_block_param(rt, text, b))?;
    rt.write_all(b" | name")?;
    let name = parse_name(text, words, at, depth, true);
    show_read(rt, words, name, |p| show_parameter(rt, text, p))?;
    rt.write_all(b" | param")?;
    let param = parse_param(text, words, at, depth, true);
    show_read(rt, words, param, |p| show_parameter(rt, text, p))?;
    rt.write_all(b" | hash")?;
    let hash = parse_hash(text, words, at, depth, true);
    show_read(rt, words, hash, |h| show_hash(rt, text, h))?;
    rt.write_all(b" | sub")?;
    let sub = parse_subexpression(text, words, at, s.end, depth, true);
    show_read(rt, words, sub, |p| show_parameter(rt, text, p))?;
    rt.write_all(b" | expression")?;
    let expression = parse_expression(text, words, at, s.end, depth, true);
    show_expression_read(rt, text, words, expression)?;
    rt.write_all(b"\n")
}

// The same by a link, with the full depth and with literals as they stand.
fn show_entered(rt: &impl Print, text: &[u8], words: &[u32], k: usize) -> io::Result<()> {
    let s = span_at(words, k);
    let link = Subexpression {
        from: k.saturating_add(1),
        limit: s.end,
        depth: Subexpression::LIMIT,
    };
    print!(rt; "{k} entered")?;
    show_expression_read(rt, text, words, enter(text, words, link))?;
    rt.write_all(b"\n")
}

// Every number up to one past the last span, with a depth of 0, 1 and 2 in turn and by a link, and the
// largest number of all.
fn show_record(rt: &impl Print, text: &[u8], words: &[u32]) -> io::Result<()> {
    let n = span_count(words);
    println!(rt; "count {n}")?;
    for k in 0..n + 1 {
        show_at(rt, text, words, k, k % 3)?;
        show_entered(rt, text, words, k)?;
    }
    show_at(rt, text, words, usize::MAX, usize::MAX)
}

// Stays: the lines of `replay_json_path`, since what the two share is `read_full` and `Replay`. The input is
// an array that is lent, since there is no heap.
fn main(rt: HostRuntime) -> io::Result<()> {
    let mut input = [0u8; LIMIT];
    let n = read_full(&mut rt.stdin(), &mut input)?;
    let replay = Replay {
        rt: &rt,
        show: |rt, text, words| show_record(rt, text, words),
    };
    replay.run(&input[..n])
}
