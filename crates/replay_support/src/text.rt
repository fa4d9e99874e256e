// The strings that are run: code points, and every string of symbols over a small alphabet.
ghost use Rattle.std.specs.Prelude.{◌<◌, ◌≤◌, length};

// Of blanks, newlines, a letter and White_Space of two and three bytes; or of a comment's marks.
#[derive(Clone, Copy)]
pub enum Alphabet {
    Blanks,
    Marks,
}

const BLANKS: [&[u8]; 8] = [
    b" ",
    b"\t",
    b"\r",
    b"\n",
    b"a",
    b"\xC2\x85",
    b"\xE2\x80\x83",
    b"\xE3\x80\x80",
];

const MARKS: [&[u8]; 9] = [
    b"{{!", b"{{!--", b"--}}", b"}}", b"{", b"}", b"-", b"!", b"a",
];

impl Alphabet {
    fn symbols(self) -> &'static [&'static [u8]]
        ensures { 0 < length result.now }
    {
        match self {
            Alphabet::Blanks => &BLANKS,
            Alphabet::Marks => &MARKS,
        }
    }

    // How many strings of this many symbols there are.
    pub(crate) fn strings(self, symbols: u32) -> usize {
        self.symbols().len().saturating_pow(symbols)
    }
}

// A string in memory of its own.
// Stays: there is no heap, so the memory is an array, and its length is in the same struct.
#[derive(Drop)]
pub struct Text {
    bytes: [u8; 64],
    len: usize,
    ghost fits: { len ≤ 64 },
}

impl Text {
    pub(crate) fn new() -> Text {
        Text {
            bytes: [0; 64],
            len: 0,
        }
    }

    // The string of this many symbols with this number: the symbols are its digits, the lowest
    // first.
    pub(crate) fn spell(alphabet: Alphabet, symbols: u32, number: usize) -> Text {
        let parts = alphabet.symbols();
        let mut text = Text::new();
        let mut rest = number;
        for _ in 0..symbols {
            text.push_bytes(parts[rest % parts.len()]);
            rest /= parts.len();
        }
        text
    }

    // Puts a byte at the end. A full text takes nothing.
    pub(crate) fn push(&mut self, b: u8) {
        if self.len < 64 {
            self.bytes[self.len] = b;
            self.len += 1;
        }
    }

    pub(crate) fn push_char(&mut self, c: char) {
        let mut bytes = [0; 4];
        self.push_bytes(c.encode_utf8(&mut bytes).as_bytes());
    }

    fn push_bytes(&mut self, s: &[u8]) {
        for b in s {
            self.push(*b);
        }
    }

    pub(crate) fn as_slice(&self) -> &[u8] {
        &self.bytes[..self.len]
    }
}
