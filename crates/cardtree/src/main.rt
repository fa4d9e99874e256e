// Reads a card from standard input, an options line, a line a span, an empty line and the text, and
// writes the listing of its tree, or why it is turned away.
#![tactic(auto)]

use card::input::read_full;
use card::read::{Card, read_card};
use std::io;
use support::bytes::part;
use template::compile::compile2;

// `compile2` of a card's parts, with 65,536 bytes lent.
// Stays: the line of a refusal is this program's, and `replay_cards` has it twice; `Refusal` is of a crate that prints nothing.
// Stays: `text`, `words` and `options` are three parameters, the options a number, as document 01's call has
// them: a struct would be taken apart at once.
// Stays: here and below arrays, since there is no heap: memory is fixed, and lent to what fills it.
fn show_answer(rt: &impl Print, text: &[u8], words: &[u32], options: u32) -> io::Result<()> {
    let mut out = [0u8; 65536];
    match compile2(text, words, options, &mut out) {
        Ok(n) => rt.write_all(part(&out, 0, n)),
        Err(r) => println!(rt; "refused {} at {}", u32::from(r.reason), r.place),
    }
}

// Stays: the lines of `replay_cards`. A type in `card` that holds what is done with a card, as `Replay` does, would be longer than they are.
fn show_card(rt: &impl Print, input: &[u8]) -> io::Result<()> {
    let mut words = [0u32; Card::WORDS];
    let Some(card) = read_card(input, &mut words) else {
        return println!(rt; "refused 15 at 0");
    };
    let text = part(input, card.text, input.len());
    show_answer(rt, text, &words[..card.words], card.options)
}

// One byte more than a card may have tells an input that is too long.
fn main(rt: HostRuntime) -> io::Result<()> {
    let mut input = [0u8; Card::LIMIT + 1];
    let n = read_full(&mut rt.stdin(), &mut input)?;
    show_card(&rt, &input[..n])
}
