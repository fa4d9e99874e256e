// What a parameter begins with, and the values that hold no expression: its own span, paths, literals.
// Stays: `text` and `words` are two parameters, as in parse.rt.
ghost use Rattle.std.specs.Prelude.{◌≡◌};
ghost use Rattle.json_path.specs.Span.{spans_from};
ghost use Rattle.literal.specs.Means.{verdict_means};
ghost use Rattle.expression.specs.Readers.{judgement, read_path, read_literal};
ghost use Rattle.expression.specs.Answers.{OwnIs, literal_means, ParamIs};

use crate::parameter::{Fault, Literal, Parameter};
use json_path::path::parse_json_path;
use json_path::span::{Span, next_span};
use literal::check::{LiteralError, check_literal, check_quoted};

// A parameter's own span: one tag 28 in front of it is passed over.
#[tactic(auto, unfolding(crate::specs::Readers::read_own_span))]
pub(crate) fn own_span(words: &[u32], at: usize) -> Option<Span>
    ensures { OwnIs words.now at result }
{
    let s = next_span(words, at)?;
    if s.tag == 28 {
        next_span(words, s.number + 1)
    } else {
        Some(s)
    }
}

// Tag 26.
#[tactic(auto, unfolding(crate::specs::Readers::read_path, crate::specs::Answers::param_means))]
pub(crate) fn parse_path(text: &[u8], words: &[u32], s: Span, at: usize) -> (Parameter, usize)
    ensures { ParamIs text.now words.now (read_path text.now s (spans_from words.now at)) at (Ok result) }
{
    let p = parse_json_path(text, words, s, at);
    (Parameter::Path(p.path), p.next)
}

// Judges a literal's text; one that is not judged is kept as it stands.
fn judge(text: &[u8], l: Literal, judged: bool) -> Result<(), LiteralError>
    ensures { verdict_means result ≡ judgement judged (literal_means text.now l) }
{
    if !judged {
        return Ok(());
    }
    let kept = l.kept.text(text);
    if l.quoted {
        check_quoted(kept)
    } else {
        check_literal(kept)
    }
}

// Tag 29 takes the next span; after a 30 one must follow, and a 31 there is taken and requoted.
#[tactic(auto, unfolding(crate::specs::Readers::read_literal, crate::specs::Answers::param_means))]
pub(crate) fn parse_literal(
    text: &[u8],
    words: &[u32],
    s: Span,
    at: usize,
    judged: bool,
) -> Result<(Parameter, usize), Fault>
    ensures { ParamIs text.now words.now (read_literal judged text.now s (spans_from words.now at)) at result }
{
    let i = next_span(words, at).ok_or(Fault::Ended)?;
    let mut l = Literal {
        kept: s.into(),
        quoted: false,
    };
    let mut next = i.number + 1;
    if i.tag == 30 {
        let q = next_span(words, next).ok_or(Fault::Ended)?;
        if q.tag == 31 {
            l = Literal {
                kept: q.into(),
                quoted: true,
            };
            next = q.number + 1;
        }
    }
    judge(text, l, judged)?;
    Ok((Parameter::Literal(l), next))
}
