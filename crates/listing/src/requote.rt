// The kept text of a literal in single quotes, as if rewritten.
ghost use Rattle.std.specs.Prelude.{◌≡◌, ◌+◌, ◌-◌, ◌≤◌, ◌<◌, length};
ghost use Rattle.literal.specs.Requote.{requoted};
ghost use Rattle.listing.specs.Code.Cost.{cost_alone, cost, cost_to};
ghost use Rattle.listing.specs.Quoted.{quoted};
ghost use Rattle.listing.specs.Written.{onward};
ghost use Rattle.listing.specs.Wrote.{Wrote};

use crate::writer::Writer;
use literal::requote::{Place, next_quoted};

// How many bytes are written for a byte of the inner text. `"` is rewritten to `\"`, of which both
// bytes have an escape.
// Stays: a table of its own, since an escape's length is 2 for `"` too.
fn cost_alone(b: u8) -> u8
    ensures { (result ≤ 4) × (result ≡ cost_alone b) }
{
    match b {
        b'"' => 4,
        b'\\' => 2,
        b'\n' => 2,
        _ => 1,
    }
}

// How many bytes are written for a byte of the inner text that `next` follows: `\'` is rewritten to
// `'`. Both bytes are always compared, since a byte that is read under a condition is not one of many
// that one instruction does.
fn cost(b: u8, next: u8) -> u8
    ensures { (result ≤ 4) × (result ≡ cost b next) }
{
    if (b == b'\\') & (next == b'\'') {
        0
    } else {
        cost_alone(b)
    }
}

// How many are written for the bytes of a block but the last, which is there to follow the one before
// it. They are counted in a byte, so that one instruction does many bytes: four for each of 32 fit.
fn block_cost(block: &[u8]) -> usize
    requires { (1 ≤ length block.now) × (length block.now ≤ 33) }
    ensures { result ≡ cost_to block.now (length block.now - 1) }
{
    // Stays: `windows(2)` takes 1089465 instructions for 64 KB, where this loop takes 111303.
    let last = block.len() - 1;
    let mut n: u8 = 0;
    for i in 0..last {
        n += cost(block[i], block[i + 1]);
    }
    n as usize
}

// How many are written for the inner text: `block_cost` over the whole of it, by blocks, each with the
// byte that the next one starts with. None follows the last byte.
fn requoted_cost(inner: &[u8]) -> usize
    ensures { result ≡ onward 0 (cost_to inner.now (length inner.now)) }
{
    let [.., last] = inner else {
        return 0;
    };
    let mut n = cost_alone(*last) as usize;
    let mut rest = inner;
    // Stays: each block has the first byte of the next one, and `chunks` gives none that overlap.
    while 33 < rest.len() {
        n = n.saturating_add(block_cost(&rest[..33]));
        rest = &rest[32..];
    }
    n.saturating_add(block_cost(rest))
}

impl<'a> Writer<'a> {
    // The rewritten text, quoted, byte by byte.
    fn write_requoted_each(&mut self, inner: &[u8])
        ensures { Wrote (quoted (requoted inner.now)) self.old self.new }
    {
        self.put(b'"');
        let mut place = Place::Opening;
        while let Some((b, next)) = next_quoted(inner, place) {
            self.put_escaped(b);
            place = next;
        }
        self.put(b'"');
    }

    // The rewritten text, quoted. Where no byte can be stored its bytes are only counted. Six of them are
    // of the quotes: two that are written, and two of the rewritten text, each with its escape.
    pub fn write_requoted(&mut self, inner: &[u8])
        ensures { Wrote (quoted (requoted inner.now)) self.old self.new }
    {
        if self.out.len() <= self.at {
            self.at = self
                .at
                .saturating_add(6)
                .saturating_add(requoted_cost(inner));
            return;
        }
        self.write_requoted_each(inner);
    }
}
