// A card: an options line, a line a span, an empty line and the text.
ghost use Rattle.std.specs.Prelude.{◌≡◌, ◌≤◌, length, set};
ghost use Rattle.card.specs.Answers.{FieldIs, LineIs, LinesIs, CardIs};

use crate::number::read_digits;

// The options, how many words the spans have, and the offset of the text.
#[derive(Clone, Copy)]
pub struct Card {
    pub options: u32,
    pub words: usize,
    pub text: usize,
}

impl Card {
    // How many bytes a card may have.
    pub const LIMIT: usize = 65536;

    // How many words its spans have at most: each takes a digit and the byte behind it.
    pub const WORDS: usize = 32768;

    // How many digits a number may have.
    pub const DIGITS: usize = 5;
}

// The words of a span line and the offset behind it.
#[derive(Clone, Copy)]
struct SpanLine {
    tag: u32,
    start: u32,
    end: u32,
    next: usize,
}

// How many words are stored, and the offset behind their lines.
#[derive(Clone, Copy)]
struct Lines {
    words: usize,
    next: usize,
}

// The number from offset `at` on, with the byte `mark` behind it, and the offset behind that byte.
// Stays: bytes and an offset, here, below and in the other files: the part from the offset on would lose where it is in the card.
fn read_field(input: &[u8], at: usize, mark: u8) -> Option<(u32, usize)>
    ensures { FieldIs input.now at mark result }
{
    let number = read_digits(input, at);
    let end = number.end;
    if end == at || Card::DIGITS < end - at {
        return None;
    }
    if input.len() <= end || input[end] != mark {
        return None;
    }
    Some((number.value, end + 1))
}

// The span line from offset `at` on.
fn read_line(input: &[u8], at: usize) -> Option<SpanLine>
    ensures { LineIs input.now at result }
{
    let (tag, second) = read_field(input, at, b' ')?;
    let (start, third) = read_field(input, second, b' ')?;
    let (end, next) = read_field(input, third, b'\n')?;
    Some(SpanLine {
        tag,
        start,
        end,
        next,
    })
}

// Stores one word, if there is room.
fn put_word(words: &mut [u32], n: usize, word: u32)
    ensures { words.new ≡ set words.old n word }
{
    // Stays: of what is written through `get_mut` a proof knows no element.
    if n < words.len() {
        words[n] = word;
    }
}

// Stores the words of the span lines from offset `from` on, as far as there is room.
fn read_lines(input: &[u8], from: usize, words: &mut [u32]) -> Lines
    requires { from ≤ length input.now }
    ensures { LinesIs input.now from words.old words.new result }
{
    let mut n = 0;
    let mut at = from;
    // Stays: `n` counts words that may have no room, three at a time.
    while let Some(s) = read_line(input, at) {
        put_word(words, n, s.tag);
        put_word(words, n + 1, s.start);
        put_word(words, n + 2, s.end);
        n += 3;
        at = s.next;
    }
    Lines { words: n, next: at }
}

// Reads a card; document 01's number for other input is 15, at 0. The words of its spans are stored, as
// far as there is room. The span lines are read over no words first, so that other input changes
// nothing.
pub fn read_card(input: &[u8], words: &mut [u32]) -> Option<Card>
    ensures { CardIs input.now words.old words.new result }
{
    if Card::LIMIT < input.len() {
        return None;
    }
    let (options, from) = read_field(input, 0, b'\n')?;
    let probe = read_lines(input, from, &mut words[0..0]);
    let end = probe.next;
    if input.len() <= end || input[end] != b'\n' {
        return None;
    }
    let lines = read_lines(input, from, words);
    Some(Card {
        options,
        words: lines.words,
        text: end + 1,
    })
}
