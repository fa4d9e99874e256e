// Spans from their words, three a span: tag, start, end.
ghost use Rattle.std.specs.Prelude.{◌≡◌, get_or};
ghost use Rattle.json_path.specs.Span.{own, span_count, span_at};
ghost use Rattle.json_path.specs.Answers.{NextIs, EscapeIs, SkipIs};

use support::bytes::part;

#[derive(Clone, Copy)]
pub struct Span {
    pub tag: u32,
    pub start: usize,
    pub end: usize,
    // its number in the whole list, from 0
    pub number: usize,
}

impl Span {
    // How many spans a list may have.
    pub const LIMIT: usize = 4096;

    // The tag that the walk and the readers pass over.
    pub const ESCAPE: u32 = 4;

    pub fn text(self, text: &[u8]) -> &[u8]
        ensures { result.now ≡ own text.now self }
    {
        part(text, self.start, self.end)
    }
}

// The word at an index, 0 past the end.
fn word(words: &[u32], i: usize) -> u32
    ensures { result ≡ get_or words.now i 0 }
{
    words.get(i).copied().unwrap_or(0)
}

pub fn span_count(words: &[u32]) -> usize
    ensures { result ≡ span_count words.now }
{
    words.len() / 3
}

// The span of number `k`; words past the end are 0.
// Stays: word by word. `as_chunks` leaves out words over, and `next_span` takes 1.4 times as long.
pub fn span_at(words: &[u32], k: usize) -> Span
    ensures { result ≡ span_at words.now k }
{
    let at = k.saturating_mul(3);
    Span {
        tag: word(words, at),
        start: word(words, at.saturating_add(1)) as usize,
        end: word(words, at.saturating_add(2)) as usize,
        number: k,
    }
}

// The first span from number `k` on that is no escape.
#[tactic(auto, using(crate::proofs::Spans::passing))]
pub fn next_span(words: &[u32], k: usize) -> Option<Span>
    ensures { NextIs words.now k result }
{
    for i in k..span_count(words) {
        let s = span_at(words, i);
        if s.tag != Span::ESCAPE {
            return Some(s);
        }
    }
    None
}

// The span of number `k`, if there is one and it is an escape.
#[tactic(auto, using(crate::proofs::Spans::escaping))]
pub fn escape_at(words: &[u32], k: usize) -> Option<Span>
    ensures { EscapeIs words.now k result }
{
    let s = span_at(words, k);
    if k < span_count(words) && s.tag == Span::ESCAPE {
        Some(s)
    } else {
        None
    }
}

// The number from which the spans are that follow those, from number `k` on, whose end is not
// beyond the limit.
// Stays: beside `last_escape` of template, which goes over the escapes. One function for both would ask of
// a closure that each span it answers lies ahead and in the list, and is no shorter than the two.
#[tactic(auto, using(crate::proofs::Spans::skipping))]
pub fn skip_to(words: &[u32], limit: usize, k: usize) -> usize
    ensures { SkipIs words.now limit k result }
{
    let mut at = k;
    while let Some(s) = next_span(words, at)
        && s.end <= limit
    {
        at = s.number + 1;
    }
    at
}
