// One byte, a quoted text, a decimal number.
ghost use Rattle.std.specs.Prelude.{◌≡◌, [], ◌∷◌, ◌++◌, ◌+◌, ◌≤◌, ◌<◌, length, take, MatchBool};
ghost use Rattle.json_path.specs.Answers.{name_means};
ghost use Rattle.listing.specs.Quoted.{quoted, decimal, escape, escaped};
ghost use Rattle.listing.specs.Written.{Written};
ghost use Rattle.listing.specs.Wrote.{Wrote};

use crate::writer::Writer;
use json_path::path::Name;

// Stores one byte, and answers the position behind it. A position that would pass the largest number stops there.
// Stays: `out` and `at` apart, here and in the next two, for the loop over single bytes. Behind a `&mut` each byte would store the
// position and read it again: a card of short lines takes 131 microseconds then, and so 102.
fn store(out: &mut [u8], at: usize, b: u8) -> usize
    ensures { Written (b ∷ []) out.old at out.new result }
{
    if at < out.len() {
        out[at] = b;
    }
    at.saturating_add(1)
}

// A backslash and what stands behind it. Where no byte can be stored they are only counted.
fn store_escape(out: &mut [u8], at: usize, letter: u8) -> usize
    ensures { Written (0x5C ∷ letter ∷ []) out.old at out.new result }
{
    if out.len() <= at {
        return at.saturating_add(2);
    }
    let p = store(out, at, b'\\');
    store(out, p, letter)
}

// One byte of a quoted text: `\`, `"` and LF have an escape.
#[tactic(auto, unfolding(crate::specs::Quoted::escape))]
fn store_escaped(out: &mut [u8], at: usize, b: u8) -> usize
    ensures { Written (escape b) out.old at out.new result }
{
    match b {
        b'\\' => store_escape(out, at, b'\\'),
        b'"' => store_escape(out, at, b'"'),
        b'\n' => store_escape(out, at, b'n'),
        _ => store(out, at, b),
    }
}

// Copies bytes for which there is room.
// Stays: byte by byte. `copy_from_slice` between two slices that are lent is compiled to a call of `memmove`, which nothing else of
// the archive for C needs from outside.
fn copy_to(out: &mut [u8], at: usize, bytes: &[u8]) -> usize
    requires { at + length bytes.now ≤ length out.old }
    ensures { Written bytes.now out.old at out.new result }
{
    for (i, b) in bytes.iter().enumerate() {
        out[at + i] = *b;
    }
    at + bytes.len()
}

// Stores these bytes as far as there is room, and counts them all.
fn store_bytes(out: &mut [u8], at: usize, bytes: &[u8]) -> usize
    ensures { Written bytes.now out.old at out.new result }
{
    if at < out.len() {
        let room = out.len() - at;
        if bytes.len() <= room {
            return copy_to(out, at, bytes);
        }
        copy_to(out, at, &bytes[..room]);
    }
    at.saturating_add(bytes.len())
}

// Stays: beside the match of `store_escaped`. An `Option` of the letter would do for both, but here a block is only counted.
fn has_escape(b: u8) -> bool
    ensures { MatchBool result (length (escape b) ≡ 2) (escape b ≡ b ∷ []) }
{
    match b {
        b'\\' => true,
        b'"' => true,
        b'\n' => true,
        _ => false,
    }
}

// How many bytes of a block have an escape, counted in a byte, so that one instruction does many bytes.
// Stays: with `filter(..).count()` a card of 16 KB of text takes 1046781 instructions, with this loop 892671.
fn escapes_in(block: &[u8]) -> usize
    requires { length block.now ≤ 128 }
    ensures { (result ≤ length block.now) × (length (escaped block.now) ≡ length block.now + result) }
{
    let mut n: u8 = 0;
    for b in block {
        n += u8::from(has_escape(*b));
    }
    n as usize
}

// How many bytes of a text have an escape: `escapes_in` over the whole text, whose count may not fit a
// byte.
fn escapes(text: &[u8]) -> usize
    ensures { length (escaped text.now) ≡ length text.now + result }
{
    let blocks = text.chunks_exact(128);
    let mut n = escapes_in(blocks.remainder());
    for block in blocks {
        n += escapes_in(block);
    }
    n
}

// The place `i` of a byte that has an escape, 64 for any other.
// Stays: 64 for none, since the least of many bytes is found by one instruction, and that of many Options is not.
fn stop_at(b: u8, i: u8) -> u8
    ensures { i < result → escape b ≡ b ∷ [] }
{
    if has_escape(b) { i } else { 64 }
}

// How many bytes at the front of a block have no escape. The least place of one that has is looked
// for over the whole block, with no early end, so that one instruction does many bytes.
fn plain_front(block: &[u8]) -> usize
    requires { length block.now ≤ 64 }
    ensures { (result ≤ length block.now) × (escaped (take result block.now) ≡ take result block.now) }
{
    let mut stop: u8 = 64;
    for (i, b) in block.iter().enumerate() {
        stop = stop.min(stop_at(*b, i as u8));
    }
    block.len().min(stop as usize)
}

impl<'a> Writer<'a> {
    // Stores one byte.
    pub fn put(&mut self, b: u8)
        ensures { Wrote (b ∷ []) self.old self.new }
    {
        self.at = store(self.out, self.at, b);
    }

    // Stores these bytes as far as there is room, and counts them all.
    pub fn put_bytes(&mut self, bytes: &[u8])
        ensures { Wrote bytes.now self.old self.new }
    {
        self.at = store_bytes(self.out, self.at, bytes);
    }

    // One byte of a quoted text.
    pub(crate) fn put_escaped(&mut self, b: u8)
        ensures { Wrote (escape b) self.old self.new }
    {
        self.at = store_escaped(self.out, self.at, b);
    }

    // The bytes of a text as they stand between quotes, one by one.
    fn write_each(&mut self, text: &[u8])
        ensures { Wrote (escaped text.now) self.old self.new }
    {
        let mut p = self.at;
        for b in text {
            p = store_escaped(self.out, p, *b);
        }
        self.at = p;
    }

    // A block as it stands between quotes: `write_each`, but the bytes between two escapes are copied at
    // once, which pays where escapes are few.
    fn write_runs(&mut self, block: &[u8])
        requires { length block.now ≤ 64 }
        ensures { Wrote (escaped block.now) self.old self.new }
    {
        let mut rest = block;
        // Stays: a turn takes as many bytes as stand plain, which no iterator counts.
        loop {
            let (plain, marked) = rest.split_at(plain_front(rest));
            self.put_bytes(plain);
            let [stop, after @ ..] = marked else {
                return;
            };
            self.put_escaped(*stop);
            rest = after;
        }
    }

    // A block as it stands between quotes, in the way that its number of escapes makes quickest.
    // Stays: the bound of a block. A struct of one slice that is at most so long would be taken apart in each of the three that ask it.
    fn write_block(&mut self, block: &[u8])
        requires { length block.now ≤ 64 }
        ensures { Wrote (escaped block.now) self.old self.new }
    {
        let n = escapes_in(block);
        if n == 0 {
            self.put_bytes(block);
        } else if 4 < n {
            self.write_each(block);
        } else {
            self.write_runs(block);
        }
    }

    // The bytes of a text as they stand between quotes: `write_each`, block by block.
    fn write_blocks(&mut self, text: &[u8])
        ensures { Wrote (escaped text.now) self.old self.new }
    {
        for block in text.chunks(64) {
            self.write_block(block);
        }
    }

    // The bytes of a long text as they stand between quotes. Where no byte can be stored they are only
    // counted, by blocks as well.
    fn write_long(&mut self, text: &[u8])
        ensures { Wrote (escaped text.now) self.old self.new }
    {
        if self.out.len() <= self.at {
            self.at = self
                .at
                .saturating_add(text.len())
                .saturating_add(escapes(text));
            return;
        }
        self.write_blocks(text);
    }

    // The bytes of a text as they stand between quotes. A few bytes are written one by one as quickly as
    // they would be counted.
    pub fn write_escaped(&mut self, text: &[u8])
        ensures { Wrote (escaped text.now) self.old self.new }
    {
        if 32 < text.len() {
            self.write_long(text);
        } else {
            self.write_each(text);
        }
    }

    // A quoted text.
    pub fn write_quoted(&mut self, text: &[u8])
        ensures { Wrote (quoted text.now) self.old self.new }
    {
        self.put(b'"');
        self.write_escaped(text);
        self.put(b'"');
    }

    // A part of a text, quoted.
    pub fn write_part(&mut self, text: &[u8], name: Name)
        ensures { Wrote (quoted (name_means text.now name)) self.old self.new }
    {
        self.write_quoted(name.text(text));
    }

    // A line: its head, a name, quoted, and its tail.
    pub(crate) fn write_line(&mut self, head: &[u8], text: &[u8], name: Name, tail: &[u8])
        ensures { Wrote (head.now ++ (quoted (name_means text.now name) ++ tail.now)) self.old self.new }
    {
        self.put_bytes(head);
        self.write_part(text, name);
        self.put_bytes(tail);
    }

    // A number in decimal.
    // Stays: std's `Display` writes to no slice. It calls itself, since a loop would find the last digit first.
    pub fn write_decimal(&mut self, n: usize)
        ensures { Wrote (decimal n) self.old self.new }
    {
        if n < 10 {
            self.put(n as u8 + b'0');
        } else {
            self.write_decimal(n / 10);
            self.put((n % 10) as u8 + b'0');
        }
    }
}
