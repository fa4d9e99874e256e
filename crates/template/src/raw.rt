// The text of a RawString: without the first bytes of its escapes, and trimmed.
ghost use Rattle.std.specs.Prelude.{◌≡◌, ◌-◌, ◌≤◌, ◌<◌, length};
ghost use Rattle.support.specs.TextRules.{strip_first_newline};
ghost use Rattle.json_path.specs.Span.{escapes_from};
ghost use Rattle.listing.specs.Quoted.{escaped, quoted};
ghost use Rattle.listing.specs.Wrote.{Wrote};
ghost use Rattle.template.specs.Escapes.{escapes_to};
ghost use Rattle.template.specs.Element.{RawGood, raw_means, front_trim, back_trim};
ghost use Rattle.template.specs.Raw.{numbered, cut_means, CutGood, CutGood-prop, CutIs, piece_end, piece_start, without_first, without_last, Skipped, start_trim, end_trim};

use crate::element::{Back, Front, RawString};
use crate::input::Input;
use json_path::span::{escape_at, span_at};
use listing::writer::Writer;
use support::bytes::{byte_at, part};
use support::str::{trim_end_blanks, trim_start_blanks};
use support::white_space::{trim_end, trim_start};

// A part of the text, and the numbers of the escapes in it.
#[derive(Clone, Copy)]
pub struct Cut {
    pub start: usize,
    pub end: usize,
    pub first: usize,
    pub last: usize,
}

// A text, its span words, and a cut of it whose pieces, between the first bytes of its escapes, are whole
// characters.
#[derive(Clone, Copy)]
pub struct Pieces<'a> {
    pub text: &'a [u8],
    pub words: &'a [u32],
    pub cut: Cut,
    ghost good: { CutGood text.now words.now cut } by { CutGood-prop text.now words.now cut },
}

// The number after the escapes that belong to a text: those up to one that ends past it.
fn last_escape(words: &[u32], from: usize, limit: usize) -> usize
    ensures { numbered words.now from (result - from) ≡ escapes_to limit (escapes_from words.now from) }
{
    let mut k = from;
    while let Some(x) = escape_at(words, k)
        && x.end <= limit
    {
        k = x.number + 1;
    }
    k
}

// How many bytes are left of a piece whose front is trimmed.
// Stays: `white`, here and below, is the flag that the specification's `start_trim` and `end_trim` take. A function passed by name
// would need a clause that says which of their two cases it is.
fn front_left(piece: &[u8], white: bool) -> usize
    ensures { result ≡ length (start_trim white piece.now) }
{
    if white {
        trim_start(piece).len()
    } else {
        trim_start_blanks(piece).len()
    }
}

// How many bytes are left of a piece whose end is trimmed.
fn back_left(piece: &[u8], white: bool) -> usize
    ensures { result ≡ length (end_trim white piece.now) }
{
    if white {
        trim_end(piece).len()
    } else {
        trim_end_blanks(piece).len()
    }
}

impl<'a> Pieces<'a> {
    // Where the first piece ends: at the next escape, or with the text.
    fn piece_end(&self) -> usize
        ensures { result ≡ piece_end self.now.words.now self.now.cut }
    {
        if self.cut.first < self.cut.last {
            span_at(self.words, self.cut.first).start
        } else {
            self.cut.end
        }
    }

    // Where the last piece starts.
    fn piece_start(&self) -> usize
        ensures { result ≡ piece_start self.now.words.now self.now.cut }
    {
        if self.cut.first < self.cut.last {
            span_at(self.words, self.cut.last - 1).start + 1
        } else {
            self.cut.start
        }
    }

    // What is left without the first piece, which ends at an escape.
    fn without_first(&self, end: usize) -> Pieces<'a>
        requires { (end ≡ piece_end self.now.words.now self.now.cut) × (self.now.cut.first < self.now.cut.last) }
        ensures same { (result.text.now ≡ self.now.text.now) × (result.words.now ≡ self.now.words.now) }
        ensures cut { result.cut ≡ without_first self.now.cut end }
    {
        Pieces {
            text: self.text,
            words: self.words,
            cut: Cut {
                start: end + 1,
                first: self.cut.first + 1,
                ..self.cut
            },
        }
    }

    // What is left without the last piece, which starts after the first byte of an escape.
    fn without_last(&self, start: usize) -> Pieces<'a>
        requires { (start ≡ piece_start self.now.words.now self.now.cut) × (self.now.cut.first < self.now.cut.last) }
        ensures same { (result.text.now ≡ self.now.text.now) × (result.words.now ≡ self.now.words.now) }
        ensures cut { result.cut ≡ without_last self.now.cut start }
    {
        Pieces {
            text: self.text,
            words: self.words,
            cut: Cut {
                end: start - 1,
                last: self.cut.last - 1,
                ..self.cut
            },
        }
    }

    // The front trimmed of White_Space, or of blanks.
    fn trim_front(&self, white: bool) -> Pieces<'a>
        ensures { CutIs result.text.now result.words.now (start_trim white (cut_means self.now.text.now self.now.words.now self.now.cut)) result.cut }
    {
        let mut c = *self;
        // Stays: a `loop`, here and below, since a turn goes on to the next piece of the text and counts no index.
        loop {
            let end = c.piece_end();
            let left = front_left(part(c.text, c.cut.start, end), white);
            if 0 < left || c.cut.last <= c.cut.first {
                return Pieces {
                    text: c.text,
                    words: c.words,
                    cut: Cut {
                        start: end - left,
                        ..c.cut
                    },
                };
            }
            c = c.without_first(end);
        }
    }

    // The first byte that is not removed stands at the front.
    fn skip_removed(&self) -> Pieces<'a>
        ensures { Skipped result.text.now result.words.now (cut_means self.now.text.now self.now.words.now self.now.cut) result.cut }
    {
        let mut c = *self;
        loop {
            if c.cut.last <= c.cut.first {
                return c;
            }
            let end = c.piece_end();
            if c.cut.start < end {
                return c;
            }
            c = c.without_first(end);
        }
    }

    // One CR LF or LF goes, never a lone CR.
    fn strip_newline(&self) -> Pieces<'a>
        ensures { CutIs result.text.now result.words.now (strip_first_newline (cut_means self.now.text.now self.now.words.now self.now.cut)) result.cut }
    {
        let c = self.skip_removed();
        if c.cut.end <= c.cut.start {
            return c;
        }
        let b = byte_at(c.text, c.cut.start);
        if b != b'\n' && b != b'\r' {
            return c;
        }
        let after = Pieces {
            text: c.text,
            words: c.words,
            cut: Cut {
                start: c.cut.start + 1,
                ..c.cut
            },
        };
        if b == b'\n' {
            return after;
        }
        let d = after.skip_removed();
        if d.cut.end <= d.cut.start {
            return c;
        }
        let e = byte_at(d.text, d.cut.start);
        if e == b'\n' {
            return Pieces {
                text: d.text,
                words: d.words,
                cut: Cut {
                    start: d.cut.start + 1,
                    ..d.cut
                },
            };
        }
        c
    }

    fn trimmed_front(&self, front: Front) -> Pieces<'a>
        ensures { CutIs result.text.now result.words.now (front_trim front (cut_means self.now.text.now self.now.words.now self.now.cut)) result.cut }
    {
        match front {
            Front::Kept => *self,
            Front::White => self.trim_front(true),
            Front::Line => self.trim_front(false).strip_newline(),
        }
    }

    // The end trimmed of White_Space, or of blanks.
    // Stays: the mirror of `trim_front`, since one function for both ends would take each of its five steps as a closure.
    fn trim_back(&self, white: bool) -> Pieces<'a>
        ensures { CutIs result.text.now result.words.now (end_trim white (cut_means self.now.text.now self.now.words.now self.now.cut)) result.cut }
    {
        let mut c = *self;
        loop {
            let start = c.piece_start();
            let left = back_left(part(c.text, start, c.cut.end), white);
            if 0 < left || c.cut.last <= c.cut.first {
                return Pieces {
                    text: c.text,
                    words: c.words,
                    cut: Cut {
                        end: start + left,
                        ..c.cut
                    },
                };
            }
            c = c.without_last(start);
        }
    }

    fn trimmed_back(&self, back: Back) -> Pieces<'a>
        ensures { CutIs result.text.now result.words.now (back_trim back (cut_means self.now.text.now self.now.words.now self.now.cut)) result.cut }
    {
        match back {
            Back::Kept => *self,
            Back::Blanks => self.trim_back(false),
            Back::White => self.trim_back(true),
        }
    }

    // The bytes of its pieces, as quoted text has them.
    fn write(&self, w: &mut Writer)
        ensures { Wrote (escaped (cut_means self.now.text.now self.now.words.now self.now.cut)) w.old w.new }
    {
        let mut c = *self;
        loop {
            let end = c.piece_end();
            w.write_escaped(part(c.text, c.cut.start, end));
            if c.cut.last <= c.cut.first {
                return;
            }
            c = c.without_first(end);
        }
    }
}

// The text, quoted.
pub(crate) fn write_raw(w: &mut Writer, input: &Input, r: RawString)
    requires { RawGood input.now.text.now input.now.words.now r }
    ensures { Wrote (quoted (raw_means input.now.text.now input.now.words.now r)) w.old w.new }
{
    let cut = Cut {
        start: r.start,
        end: r.end,
        first: r.escapes,
        last: last_escape(input.words, r.escapes, r.end),
    };
    let whole = Pieces {
        text: input.text,
        words: input.words,
        cut,
    };
    let trimmed = whole.trimmed_front(r.front).trimmed_back(r.back);
    w.put(b'"');
    trimmed.write(w);
    w.put(b'"');
}
