// Paths: the segments that spans give, and whether they name a local variable.
ghost use Rattle.std.specs.Prelude.{◌≡◌};
ghost use Rattle.json_path.specs.Path.{segment_of, ups_and_name, local_name, path_of};
ghost use Rattle.json_path.specs.Answers.{name_means, given_means, local_means, raw_means, segments_mean, path_means, SegmentIs, PathIs};

use crate::span::{Span, next_span, skip_to};
use support::bytes::{part, same_bytes};

// A name: a part of the text.
#[derive(Clone, Copy)]
pub struct Name {
    pub start: usize,
    pub end: usize,
}

impl Name {
    pub fn text(self, text: &[u8]) -> &[u8]
        ensures { result.now ≡ name_means text.now self }
    {
        part(text, self.start, self.end)
    }
}

// Stays: field by field, since a `Span` has a tag and a number besides.
impl From<Span> for Name {
    ghost from_gives = { λ s n. n ≡ record { start = s.start; end = s.end } };

    fn from(s: Span) -> Name {
        Name {
            start: s.start,
            end: s.end,
        }
    }
}

#[derive(Clone, Copy)]
pub enum PathSeg {
    Named(Name),
    Root,
    Here,
    Up,
}

// The segments are those of the walked spans from number `from` on, up to one that ends past the
// raw text.
#[derive(Clone, Copy)]
pub struct Relative {
    pub raw: Name,
    pub from: usize,
}

#[derive(Clone, Copy)]
pub struct Local {
    pub raw: Name,
    pub level: usize,
    pub name: Name,
}

#[derive(Clone, Copy)]
pub enum Path {
    Relative(Relative),
    Local(Local),
}

// A path, and the number from which the spans after it are.
#[derive(Clone, Copy)]
pub struct PathRead {
    pub path: Path,
    pub next: usize,
}

// The segment that a span gives, or none.
// Stays: document 01 names one match over the tag's number, with ranges.
#[tactic(auto, unfolding(crate::specs::Path::segment_of))]
fn segment_of(text: &[u8], s: Span) -> Option<PathSeg>
    ensures { given_means text.now result ≡ segment_of text.now s }
{
    match s.tag {
        36 => Some(PathSeg::Root),
        37 => Some(PathSeg::Here),
        38 => Some(PathSeg::Up),
        39..=40 if !same_bytes(s.text(text), b"this") => Some(PathSeg::Named(s.into())),
        _ => None,
    }
}

// The first segment of a relative path and the path of the others, or there is none. Spans are
// taken while their end is not beyond the path's.
// Stays: text and words apart, here and below. In one struct a path takes 1.6 times as long.
// Inlined, since most paths have one segment: with calls a card of expressions takes 1.04 times as long.
#[inline]
#[tactic(auto, unfolding(crate::specs::Path::segments_to))]
pub fn next_segment(text: &[u8], words: &[u32], path: Relative) -> Option<(PathSeg, Relative)>
    ensures { SegmentIs text.now words.now path result }
{
    let mut at = path.from;
    // Stays: a `loop` with `let else`, document 01's form for the next span.
    loop {
        let Some(s) = next_span(words, at) else {
            return None;
        };
        if path.raw.end < s.end {
            return None;
        }
        at = s.number + 1;
        if let Some(segment) = segment_of(text, s) {
            return Some((segment, Relative { from: at, ..path }));
        }
    }
}

// The segments are ups and a name: how many ups, and the name.
#[tactic(auto, unfolding(crate::specs::Path::ups_and_name))]
fn ups_and_name(text: &[u8], words: &[u32], path: Relative) -> Option<(usize, Name)>
    ensures { local_means text.now result ≡ ups_and_name 0 (segments_mean text.now words.now path) }
{
    let mut rest = path;
    let mut level = 0;
    // Stays: `loop`, since a `while let` over the ups would read the segment behind them once more.
    loop {
        let (segment, after) = next_segment(text, words, rest)?;
        match segment {
            PathSeg::Up => {
                level += 1;
                rest = after;
            }
            PathSeg::Named(name) => return Some((level, name)),
            _ => return None,
        }
    }
}

// The segments are here, ups and a name: how many ups, and the name.
#[tactic(auto, unfolding(crate::specs::Path::local_name))]
fn get_local_path_and_level(text: &[u8], words: &[u32], path: Relative) -> Option<(usize, Name)>
    ensures { local_means text.now result ≡ local_name (segments_mean text.now words.now path) }
{
    let Some((PathSeg::Here, rest)) = next_segment(text, words, path) else {
        return None;
    };
    ups_and_name(text, words, rest)
}

impl Path {
    // Local, or else the relative path itself.
    #[tactic(auto, unfolding(crate::specs::Path::path_of))]
    fn new(text: &[u8], words: &[u32], path: Relative) -> Path
        ensures { path_means text.now words.now result ≡ path_of (raw_means text.now (Path.Relative path)) (segments_mean text.now words.now path) }
    {
        match get_local_path_and_level(text, words, path) {
            Some((level, name)) => Path::Local(Local {
                raw: path.raw,
                level,
                name,
            }),
            None => Path::Relative(path),
        }
    }

    // The raw text.
    pub fn raw(self, text: &[u8]) -> &[u8]
        ensures { result.now ≡ raw_means text.now self }
    {
        match self {
            Path::Relative(p) => p.raw.text(text),
            Path::Local(p) => p.raw.text(text),
        }
    }
}

// The path of a reference, read from the spans from number `at` on.
pub fn parse_json_path(text: &[u8], words: &[u32], reference: Span, at: usize) -> PathRead
    ensures { PathIs text.now words.now reference at result }
{
    let path = Relative {
        raw: reference.into(),
        from: at,
    };
    PathRead {
        path: Path::new(text, words, path),
        next: skip_to(words, reference.end, at),
    }
}
