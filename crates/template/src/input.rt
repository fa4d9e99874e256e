// What the walk is given, and what a visit of one of its spans is given.
ghost use Rattle.template.specs.Element.{Good};
ghost use Rattle.template.specs.Lines.{LinesAre};
ghost use Rattle.template.specs.Visiting.{SpanStands};

use crate::visit::{Here, Options, View};
use json_path::span::Span;

// The input of a call that 1 to 5 have found good: a text, its span words and the options; and the tables of
// the empty lines that start and end at each offset of the text.
// Stays: two tables, since they are filled from opposite ends: in one table of pairs each pass would store the other half again.
#[derive(Clone, Copy)]
pub struct Input<'a> {
    pub text: &'a [u8],
    pub words: &'a [u32],
    pub options: Options,
    pub starts: &'a [bool],
    pub ends: &'a [bool],
    ghost good: { Good text.now words.now },
    ghost lines: { LinesAre text.now starts.now ends.now },
}

// A visit of a walked span: what the walk knows there, whether the gap before the span is kept, and its place.
#[derive(Clone, Copy)]
pub struct Visit<'a> {
    pub input: &'a Input<'a>,
    pub view: View,
    pub span: Span,
    pub gap: bool,
    pub here: Here,
    ghost walked: { SpanStands input.now.text.now input.now.words.now span },
}
