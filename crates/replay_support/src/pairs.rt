// Byte order and equality on all pairs of strings of up to two symbols, parts of one string at all
// offsets, and the functions of one byte on all bytes.
use crate::fold::{fold, fold_bytes};
use crate::text::{Alphabet, Text};
use std::io;
use support::bytes::{byte_at, part, precedes, same_bytes};
use support::str::{newline_matcher, whitespace_matcher};
use support::utf8::is_tail;

// How many strings of up to two symbols there are.
const SHORT: usize = 73;

// A string of up to two symbols by its number: the shorter ones first.
fn short(number: usize) -> Text {
    match number {
        0 => Text::new(),
        1..=8 => Text::spell(Alphabet::Blanks, 1, number - 1),
        _ => Text::spell(Alphabet::Blanks, 2, number - 9),
    }
}

fn fold_pair(h: u64, s: &[u8], t: &[u8]) -> u64 {
    fold(fold(h, precedes(s, t)), same_bytes(s, t))
}

// One string with each.
fn hash_pairs(s: &[u8]) -> u64 {
    (0..SHORT).fold(0, |h, j| fold_pair(h, s, short(j).as_slice()))
}

fn report_order(rt: &impl Print) -> io::Result<()> {
    println!(rt; "pairs: byte order and equality")?;
    for i in 0..SHORT {
        println!(rt; "{i} {:08x}", hash_pairs(short(i).as_slice()))?;
    }
    Ok(())
}

// To two past the end of the string, and the largest number.
const OFFSETS: [usize; 14] = [0, 1, 2, 3, 4, 5, 6, 7, 8, 9, 10, 11, 12, usize::MAX];

// A part of a string of ten bytes, and the byte where it starts.
fn fold_part(h: u64, a: usize, e: usize) -> u64 {
    let t = b"a \n{{!\xE2\x80\x83z";
    fold_bytes(fold(h, byte_at(t, a)), part(t, a, e))
}

// The parts from one offset on.
fn hash_parts(a: usize) -> u64 {
    OFFSETS.iter().fold(0, |h, e| fold_part(h, a, *e))
}

fn report_parts(rt: &impl Print) -> io::Result<()> {
    println!(rt; "parts: from each offset")?;
    for a in OFFSETS {
        println!(rt; "{:08x}", hash_parts(a))?;
    }
    Ok(())
}

// The bytes that pass a test.
fn report_bytes<F: Fn(u8) -> bool>(rt: &impl Print, name: &str, test: F) -> io::Result<()>
    requires { F.IsAlwaysCallable test }
{
    print!(rt; "{name}:")?;
    for b in 0..=u8::MAX {
        if test(b) {
            print!(rt; " {b:02x}")?;
        }
    }
    println!(rt)
}

pub fn report(rt: &impl Print) -> io::Result<()> {
    report_order(rt)?;
    report_parts(rt)?;
    report_bytes(rt, "whitespace_matcher", whitespace_matcher)?;
    report_bytes(rt, "newline_matcher", newline_matcher)?;
    report_bytes(rt, "is_tail", is_tail)
}
