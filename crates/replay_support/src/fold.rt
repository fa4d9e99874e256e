// A running hash: answers are folded into one number, so that a line stands for many of them.
use support::position::Place;

// The largest prime below 2^32.
const MODULUS: u64 = 4_294_967_291;

const FACTOR: u64 = 2_654_435_761;

pub fn fold<N: Into<u64>>(h: u64, n: N) -> u64 {
    (h % MODULUS * FACTOR + n.into() % MODULUS + 1) % MODULUS
}

pub fn fold_place(h: u64, p: Place) -> u64 {
    fold(fold(h, p.line), p.column)
}

// The length, and then each byte.
pub fn fold_bytes(h: u64, s: &[u8]) -> u64 {
    let start = fold(h, s.len() as u64);
    s.iter().fold(start, |g, b| fold(g, *b))
}
