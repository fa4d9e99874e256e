// Reads stored cards from standard input, each behind a line with its length, and writes what
// `compile2` answers to each. Cards with a short listing are run again with every room from 0 to past
// their listing: a refused call must leave the output as it was, and an accepted one must change only
// what its listing fills. A listing that is too long for `cardtree` is made once more with room for four
// times as much. The answers are compared with those of tools/cards.
#![tactic(auto)]

ghost use Rattle.std.specs.Prelude.{◌≤◌, length};

use card::input::read_full;
use card::read::{Card, read_card};
use card::stored::Blocks;
use std::io;
use support::bytes::{part, same_bytes};
use template::compile::compile2;
use template::refusal::{Reason, Refusal};

// The byte that stands where nothing is written.
const CANARY: u8 = 0xA5;

// The longest listing that is run with every room.
const SHORT: usize = 256;

// The longest that is shown whole.
const LONG: usize = 4096;

// Whether all bytes are canaries.
fn untouched(bytes: &[u8]) -> bool {
    bytes.iter().all(|b| *b == CANARY)
}

// The answer over the first `room` bytes.
// Stays: `text`, `words` and `options` are three parameters, here and below, the options a number, as document
// 01's call has them: a struct would be taken apart at each.
fn answer_in(
    text: &[u8],
    words: &[u32],
    options: u32,
    out: &mut [u8],
    room: usize,
) -> Result<usize, Refusal>
    requires { room ≤ length out.old }
{
    compile2(text, words, options, &mut out[..room])
}

// Whether one room, of an output with canaries, is answered as it should be.
fn good_room(text: &[u8], words: &[u32], options: u32, listing: &[u8], room: usize) -> bool
    requires { room ≤ 264 }
{
    // Stays: here and below arrays, since there is no heap: memory is fixed, and lent to what fills it.
    let mut out = [CANARY; SHORT + 8];
    match answer_in(text, words, options, &mut out, room) {
        Ok(n) => {
            n == listing.len()
                && n <= room
                && same_bytes(part(&out, 0, n), listing)
                && untouched(part(&out, n, out.len()))
        }
        Err(r) => {
            r.reason == Reason::ListingTooLong
                && r.place == listing.len()
                && room < r.place
                && untouched(&out)
        }
    }
}

// A sum in which a byte counts by its place, so that few wrong listings have the right one.
fn sum_of(bytes: &[u8]) -> usize {
    // Stays: in a `fold` nothing bounds the sum that the closure is given.
    let mut sum: usize = 0;
    for b in bytes {
        sum = (sum * 31 + *b as usize) % 1000003;
    }
    sum
}

// A listing, or its length and sum.
fn show_listing(rt: &impl Print, listing: &[u8]) -> io::Result<()> {
    if listing.len() <= LONG {
        return rt.write_all(listing);
    }
    let sum = sum_of(listing);
    println!(rt; "a listing of {} bytes with sum {sum}", listing.len())
}

// How many rooms from 0 to past the listing are answered as they should be.
fn show_rooms(
    rt: &impl Print,
    text: &[u8],
    words: &[u32],
    options: u32,
    listing: &[u8],
) -> io::Result<()> {
    if SHORT < listing.len() {
        return Ok(());
    }
    // Stays: in a chain over the rooms nothing bounds the room that the closure is given.
    let mut good: usize = 0;
    for room in 0..listing.len() + 4 {
        if good_room(text, words, options, listing, room) {
            good += 1;
        }
    }
    println!(rt; "rooms {good}")
}

// The answer with room for four times as much.
fn show_longer(rt: &impl Print, text: &[u8], words: &[u32], options: u32) -> io::Result<()> {
    let mut out = [CANARY; 262144];
    match compile2(text, words, options, &mut out) {
        Ok(n) => {
            show_listing(rt, part(&out, 0, n))?;
            if !untouched(part(&out, n, out.len())) {
                println!(rt; "and more was written")?;
            }
            Ok(())
        }
        Err(r) => println!(rt; "refused {} at {}", u32::from(r.reason), r.place),
    }
}

fn show_answer(rt: &impl Print, text: &[u8], words: &[u32], options: u32) -> io::Result<()> {
    let mut out = [0u8; 65536];
    match compile2(text, words, options, &mut out) {
        Ok(n) => {
            show_listing(rt, part(&out, 0, n))?;
            show_rooms(rt, text, words, options, part(&out, 0, n))
        }
        Err(r) => {
            println!(rt; "refused {} at {}", u32::from(r.reason), r.place)?;
            if r.reason == Reason::ListingTooLong {
                show_longer(rt, text, words, options)?;
            }
            Ok(())
        }
    }
}

// Stays: the lines of `cardtree`. A type in `card` that holds what is done with a card, as `Replay` does, would be longer than they are.
fn show_card(rt: &impl Print, input: &[u8]) -> io::Result<()> {
    let mut words = [0u32; Card::WORDS];
    let Some(card) = read_card(input, &mut words) else {
        return println!(rt; "refused 15 at 0");
    };
    let text = part(input, card.text, input.len());
    show_answer(rt, text, &words[..card.words], card.options)
}

// Each card, behind its number.
fn replay(rt: &impl Print, input: &[u8]) -> io::Result<()> {
    for (number, card) in Blocks::new(input).enumerate() {
        println!(rt; "card {number}")?;
        show_card(rt, card)?;
    }
    Ok(())
}

fn main(rt: HostRuntime) -> io::Result<()> {
    let mut input = [0u8; 524288];
    let n = read_full(&mut rt.stdin(), &mut input)?;
    replay(&rt, &input[..n])
}
