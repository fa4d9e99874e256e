// Each function on text, on every string of up to some symbols: a line for each function and each
// number of symbols.
use crate::fold::{fold, fold_bytes, fold_place};
use crate::text::{Alphabet, Text};
use std::io;
use support::bytes::part;
use support::position::{Place, line_col};
use support::str::{
    ends_with_empty_line, find_trailing_whitespace_chars, hbs_comment_compact_text,
    hbs_comment_text, starts_with_empty_line, strip_first_newline, trim_end_blanks,
    trim_end_matches, trim_start_blanks, trim_start_matches,
};
use support::utf8::is_char_boundary;
use support::white_space::{trim_end, trim_start};

// The place at the end, found in two stretches, and the one between them where a character starts.
fn fold_cut(h: u64, from: Place, s: &[u8], cut: usize) -> u64 {
    let middle = line_col(from, part(s, 0, cut));
    let last = line_col(middle, part(s, cut, s.len()));
    if is_char_boundary(s, cut) {
        return fold_place(fold_place(h, middle), last);
    }
    fold_place(h, last)
}

// Cut at each offset from the end down.
fn fold_cuts(h: u64, from: Place, s: &[u8]) -> u64 {
    (0..s.len() + 1)
        .rev()
        .fold(h, |g, cut| fold_cut(g, from, s, cut))
}

// What a call answers on all strings of this many symbols, folded.
fn hash_strings<F: Fn(u64, &[u8]) -> u64>(alphabet: Alphabet, symbols: u32, call: &F) -> u64
    requires { F.IsAlwaysCallable call.now }
{
    let mut h = 0;
    for number in 0..alphabet.strings(symbols) {
        h = call(h, Text::spell(alphabet, symbols, number).as_slice());
    }
    h
}

// The call is run on strings of fewer symbols than `end`.
fn report_call<F: Fn(u64, &[u8]) -> u64>(
    rt: &impl Print,
    name: &str,
    alphabet: Alphabet,
    end: u32,
    call: F,
) -> io::Result<()>
    requires { F.IsAlwaysCallable call }
{
    for symbols in 0..end {
        let h = hash_strings(alphabet, symbols, &call);
        println!(rt; "{name} {symbols} {h:08x}")?;
    }
    Ok(())
}

// A function that answers a part of the string.
fn report_part<F: Fn(&[u8]) -> &[u8]>(rt: &impl Print, name: &str, f: F) -> io::Result<()>
    requires { F.IsAlwaysCallable f }
{
    report_call(rt, name, Alphabet::Blanks, 7, |h, s| fold_bytes(h, f(s)))
}

fn report_flag<F: Fn(&[u8]) -> bool>(rt: &impl Print, name: &str, f: F) -> io::Result<()>
    requires { F.IsAlwaysCallable f }
{
    report_call(rt, name, Alphabet::Blanks, 7, |h, s| fold(h, f(s)))
}

fn report_lines(rt: &impl Print) -> io::Result<()> {
    report_part(rt, "strip_first_newline", strip_first_newline)?;
    report_part(rt, "trim_start_blanks", trim_start_blanks)?;
    report_part(rt, "trim_end_blanks", trim_end_blanks)?;
    report_part(
        rt,
        "find_trailing_whitespace_chars",
        find_trailing_whitespace_chars,
    )?;
    report_flag(rt, "ends_with_empty_line", ends_with_empty_line)?;
    report_flag(rt, "starts_with_empty_line", starts_with_empty_line)?;
    report_part(rt, "trim_start", trim_start)?;
    report_part(rt, "trim_end", trim_end)
}

fn report_cuts(rt: &impl Print, name: &str, from: Place) -> io::Result<()> {
    report_call(rt, name, Alphabet::Blanks, 5, |h, s| fold_cuts(h, from, s))
}

fn report_places(rt: &impl Print) -> io::Result<()> {
    report_cuts(rt, "line_col", Place { line: 1, column: 1 })?;
    // Both numbers of a place are at most `u32::MAX`, where they stay: from just below it they get
    // there.
    let line = u32::MAX - 1;
    let column = u32::MAX - 2;
    report_cuts(
        rt,
        "line_col at the largest numbers",
        Place { line, column },
    )
}

fn report_comments(rt: &impl Print) -> io::Result<()> {
    report_call(rt, "hbs_comment_compact_text", Alphabet::Marks, 6, |h, s| {
        fold_bytes(h, hbs_comment_compact_text(s))
    })?;
    report_call(rt, "hbs_comment_text", Alphabet::Marks, 6, |h, s| {
        fold_bytes(h, hbs_comment_text(s))
    })
}

// One pattern at both ends, with a name for each.
fn report_matches(rt: &impl Print, first: &str, second: &str, pattern: &[u8]) -> io::Result<()> {
    report_call(rt, first, Alphabet::Marks, 5, |h, s| {
        fold_bytes(h, trim_start_matches(s, pattern))
    })?;
    report_call(rt, second, Alphabet::Marks, 5, |h, s| {
        fold_bytes(h, trim_end_matches(s, pattern))
    })
}

fn report_patterns(rt: &impl Print) -> io::Result<()> {
    report_matches(
        rt,
        "trim_start_matches of nothing",
        "trim_end_matches of nothing",
        b"",
    )?;
    report_matches(rt, "trim_start_matches {", "trim_end_matches {", b"{")?;
    report_matches(rt, "trim_start_matches -", "trim_end_matches -", b"-")?;
    report_matches(rt, "trim_start_matches }}", "trim_end_matches }}", b"}}")?;
    report_matches(rt, "trim_start_matches --", "trim_end_matches --", b"--")?;
    report_matches(rt, "trim_start_matches -}", "trim_end_matches -}", b"-}")
}

pub fn report(rt: &impl Print) -> io::Result<()> {
    println!(rt; "calls: symbols, answers")?;
    report_lines(rt)?;
    report_places(rt)?;
    report_comments(rt)?;
    report_patterns(rt)
}
