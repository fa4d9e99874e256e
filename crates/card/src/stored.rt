// The stored records of the programs that replay them: a line of text and a line of numbers, or a line
// with a length and so many bytes.
ghost use Rattle.std.specs.Prelude.{◌≡◌, ◌+◌, length, drop, [], MatchOption};
ghost use Rattle.std.specs.Iterator.{at_most};
ghost use Rattle.card.specs.Stored.{first_line, after_line, FirstLineIs, WordsIs, RecordIs, BlockIs, max_words, records, AnswersIn};

use crate::number::read_digits;
use std::io;
use support::bytes::part;

// The offset of the first LF from offset `at` on, or the end.
fn line_end(s: &[u8], at: usize) -> usize
    ensures { result ≡ at + length (first_line (drop at s.now)) }
{
    let rest = part(s, at, s.len());
    at + rest.iter().position(|c| *c == b'\n').unwrap_or(rest.len())
}

// The line from offset `at` on, without its LF.
pub fn line_at(s: &[u8], at: usize) -> &[u8]
    ensures { FirstLineIs s.now at result.now }
{
    part(s, at, line_end(s, at))
}

// Stores the numbers of a line, as far as there is room. Answers how many are stored.
pub fn read_words(line: &[u8], words: &mut [u32]) -> usize
    ensures { WordsIs line.now words.old words.new result }
{
    let mut at = 0;
    for n in 0..words.len() {
        if line.len() <= at {
            return n;
        }
        let number = read_digits(line, at);
        words[n] = number.value;
        at = number.end + 1;
    }
    words.len()
}

// The first line, and what stands behind its LF.
fn split_line(s: &[u8]) -> (&[u8], &[u8])
    ensures line { result.0.now ≡ first_line s.now }
    ensures behind { result.1.now ≡ after_line s.now }
{
    let line = line_at(s, 0);
    (line, part(s, line.len() + 1, s.len()))
}

// The records that are left, each a text and the line of its words.
#[derive(Drop)]
pub struct Records<'a> {
    pub rest: &'a [u8],
}

impl<'a> Records<'a> {
    pub fn new(s: &'a [u8]) -> Records<'a>
        ensures { result.rest.now ≡ s.now }
    {
        Records { rest: s }
    }
}

impl<'a> Iterator for Records<'a> {
    type Item = (&'a [u8], &'a [u8]);

    ghost next_gives = { λ s r t. MatchOption r (s.rest.now ≡ []) (λ (text, words). RecordIs s.rest.now text.now words.now t.rest.now) };

    ghost remaining = { λ s. at_most (length s.rest.now) };

    fn next(&mut self) -> Option<(&'a [u8], &'a [u8])> {
        if self.rest.is_empty() {
            return None;
        }
        let (text, behind) = split_line(self.rest);
        let (words, rest) = split_line(behind);
        self.rest = rest;
        Some((text, words))
    }
}

// What gives each record's text and words to `show`, which may be called with any.
// Stays: a function pointer beside the runtime that it writes to, in place of a closure that holds it. A ghost
// field cannot cite a bound `F: Fn`, a `&dyn Fn` is refused as a field, and so is a pointer that names a type
// parameter; a function over a closure would have a `requires`.
#[derive(Drop)]
pub struct Replay<'a> {
    pub rt: &'a HostRuntime,
    pub show: fn(&HostRuntime, &[u8], &[u32]) -> io::Result<()>,
    ghost callable: { IsAlwaysCallable show },
}

impl<'a> Replay<'a> {
    // How many words a record has at most: three for each span that a list may have.
    pub const WORDS: usize = 12288;

    // Calls `show` at each record, in order, up to the first error.
    // Stays: an array, since there is no heap.
    pub fn run(&self, input: &[u8]) -> io::Result<()>
        ensures { AnswersIn (λ text line r. (t w : _) × (t.now ≡ text) × (w.now ≡ line) × post self.now.show self.now.rt t w r)
            (records max_words input.now) result }
    {
        let mut words = [0u32; Replay::WORDS];
        for (text, line) in Records::new(input) {
            let n = read_words(line, &mut words);
            (self.show)(self.rt, text, &words[..n])?;
        }
        Ok(())
    }
}

// The blocks that are left, each the bytes behind a line with their length.
#[derive(Drop)]
pub struct Blocks<'a> {
    pub rest: &'a [u8],
}

impl<'a> Blocks<'a> {
    pub fn new(s: &'a [u8]) -> Blocks<'a>
        ensures { result.rest.now ≡ s.now }
    {
        Blocks { rest: s }
    }
}

impl<'a> Iterator for Blocks<'a> {
    type Item = &'a [u8];

    ghost next_gives = { λ s r t. MatchOption r (s.rest.now ≡ []) (λ block. BlockIs s.rest.now block.now t.rest.now) };

    ghost remaining = { λ s. at_most (length s.rest.now) };

    fn next(&mut self) -> Option<&'a [u8]> {
        if self.rest.is_empty() {
            return None;
        }
        let (line, behind) = split_line(self.rest);
        let length = read_digits(line, 0).value as usize;
        self.rest = part(behind, length, behind.len());
        Some(part(behind, 0, length))
    }
}
