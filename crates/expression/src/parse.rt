// The readers of names, parameters, keys, parts, expressions and subexpressions. They call each other
// in a cycle: an expression holds parameters, and a parameter may hold an expression. At each turn of
// the cycle fewer spans remain, and in a subexpression less depth. Each answers what it read and the
// number from which the spans after it are, or why not. `judged` says whether literals are judged:
// they are where a tag is walked, and not again where what was read is read again.
// Stays: `judged` is a flag, since the specification's readers take a truth value: an enum would stand in
// ten clauses behind an `is_judged`.
// Stays: `text` and `words` are two parameters, since json_path takes them so: path.rt there says what one struct costs.
// Stays: `depth` and `judged` are two, since they say nothing of each other.
ghost use Rattle.std.specs.Prelude.{◌+◌, ◌<◌, length};
ghost use Rattle.json_path.specs.Span.{spans_from};
ghost use Rattle.expression.specs.Readers.{read_name, read_subexpression, read_param, read_value, read_expression};
ghost use Rattle.expression.specs.Answers.{TildeIs, BlockIs, ParamIs, HashIs, PartIs, ExpressionIs, PartsIs};

use crate::parameter::{
    BlockParam, ExpressionSpec, Fault, Hash, Parameter, Part, Parts, Subexpression,
};
use crate::value::{own_span, parse_literal, parse_path};
use json_path::span::{Span, next_span, skip_to};

// A left tilde, if there is one.
pub fn parse_tilde(words: &[u32], at: usize) -> Result<(bool, usize), Fault>
    ensures { TildeIs words.now at result }
{
    let s = next_span(words, at).ok_or(Fault::Ended)?;
    if s.tag == 34 {
        Ok((true, s.number + 1))
    } else {
        Ok((false, at))
    }
}

// A span as block parameter, and a second if it does not end past the limit, tag 33's end.
#[tactic(auto, unfolding(crate::specs::Readers::read_block_param, crate::specs::Readers::read_second))]
pub fn parse_block_param(
    words: &[u32],
    at: usize,
    limit: usize,
) -> Result<(BlockParam, usize), Fault>
    ensures { BlockIs words.now limit at result }
{
    let a = next_span(words, at).ok_or(Fault::Ended)?;
    let first = a.into();
    match next_span(words, a.number + 1) {
        Some(b) if b.end <= limit => Ok((BlockParam::Pair(first, b.into()), b.number + 1)),
        _ => Ok((BlockParam::Single(first), a.number + 1)),
    }
}

// A name: tags 21 to 25, or a path, or a subexpression.
#[cycle(readers)]
#[tactic(auto, using(crate::proofs::Equations::name_end, crate::proofs::Equations::name_next), unfolding(crate::specs::Answers::param_means))]
pub fn parse_name(
    text: &[u8],
    words: &[u32],
    at: usize,
    depth: usize,
    judged: bool,
) -> Result<(Parameter, usize), Fault>
    ensures { ParamIs text.now words.now (read_name judged text.now depth (spans_from words.now at)) (at + 1) result }
{
    let s = next_span(words, at).ok_or(Fault::Ended)?;
    // Stays: here and below one match over the tag number, document 01's form.
    match s.tag {
        21..=25 => Ok((Parameter::Name(s.into()), s.number + 1)),
        26 => Ok(parse_path(text, words, s, s.number + 1)),
        27 => parse_subexpression(text, words, s.number + 1, s.end, depth, judged),
        _ => Err(Fault::NotAllowed),
    }
}

// A parameter from its own span.
#[cycle(readers)]
fn parse_value(
    text: &[u8],
    words: &[u32],
    s: Span,
    depth: usize,
    judged: bool,
) -> Result<(Parameter, usize), Fault>
    requires { s.number < length words.now }
    ensures { ParamIs text.now words.now (read_value judged text.now depth s (spans_from words.now (s.number + 1))) (s.number + 1) result }
{
    match s.tag {
        26 => Ok(parse_path(text, words, s, s.number + 1)),
        27 => parse_subexpression(text, words, s.number + 1, s.end, depth, judged),
        29 => parse_literal(text, words, s, s.number + 1, judged),
        _ => Err(Fault::NotAllowed),
    }
}

// A parameter. When read, it skips the spans that end no later than its own.
#[cycle(readers)]
#[tactic(auto, using(crate::proofs::Equations::param_eq))]
pub fn parse_param(
    text: &[u8],
    words: &[u32],
    at: usize,
    depth: usize,
    judged: bool,
) -> Result<(Parameter, usize), Fault>
    ensures { ParamIs text.now words.now (read_param judged text.now depth (spans_from words.now at)) (at + 1) result }
{
    let s = own_span(words, at).ok_or(Fault::Ended)?;
    let (parameter, next) = parse_value(text, words, s, depth, judged)?;
    Ok((parameter, skip_to(words, s.end, next)))
}

// A span as key, and then a parameter.
#[cycle(readers)]
pub fn parse_hash(
    text: &[u8],
    words: &[u32],
    at: usize,
    depth: usize,
    judged: bool,
) -> Result<(Hash, usize), Fault>
    ensures { HashIs judged text.now words.now depth at result }
{
    let k = next_span(words, at).ok_or(Fault::Ended)?;
    let (value, next) = parse_param(text, words, k.number + 1, depth, judged)?;
    let hash = Hash {
        key: k.into(),
        value,
    };
    Ok((hash, next))
}

// The first part of a link's and the link to the others. There is none at the end of the list, and
// none from a span on whose end is at or past the limit.
#[cycle(readers)]
#[tactic(auto, using(crate::proofs::Equations::parts_none, crate::proofs::Equations::parts_stop, crate::proofs::Equations::parts_next))]
pub fn next_part(
    text: &[u8],
    words: &[u32],
    parts: Parts,
    judged: bool,
) -> Result<Option<(Part, Parts)>, Fault>
    ensures { PartIs judged text.now words.now parts result }
{
    let Some(s) = next_span(words, parts.from) else {
        return Ok(None);
    };
    if parts.limit <= s.end {
        return Ok(None);
    }
    let at = s.number + 1;
    let (part, from) = match s.tag {
        28 => {
            let (v, next) = parse_param(text, words, at, parts.depth, judged)?;
            (Part::Param(v), next)
        }
        32 => {
            let (v, next) = parse_hash(text, words, at, parts.depth, judged)?;
            (Part::Hash(v), next)
        }
        33 => {
            let (v, next) = parse_block_param(words, at, s.end)?;
            (Part::BlockParam(v), next)
        }
        35 => (Part::RightTilde, at),
        _ => (Part::Skipped, at),
    };
    Ok(Some((part, Parts { from, ..parts })))
}

// The expression of a left tilde, a name and its parts: all parts are read, and of them only the
// block parameter and the right tilde are kept.
#[cycle(readers)]
fn parse_parts(
    text: &[u8],
    words: &[u32],
    left: bool,
    name: Parameter,
    parts: Parts,
    judged: bool,
) -> Result<ExpressionSpec, Fault>
    ensures { PartsIs judged text.now words.now left name parts result }
{
    let mut rest = parts;
    let mut block = None;
    let mut right = false;
    while let Some((part, after)) = next_part(text, words, rest, judged)? {
        match part {
            Part::BlockParam(b) => block = Some(b),
            Part::RightTilde => right = true,
            _ => {}
        }
        rest = after;
    }
    Ok(ExpressionSpec {
        omit_pre_ws: left,
        name,
        parts,
        block_param: block,
        omit_pro_ws: right,
        next: rest.from,
    })
}

// An expression: tag 34 or not, a name, and its parts up to the limit.
#[cycle(readers)]
#[tactic(auto, using(crate::proofs::Equations::expression_eq))]
pub fn parse_expression(
    text: &[u8],
    words: &[u32],
    at: usize,
    limit: usize,
    depth: usize,
    judged: bool,
) -> Result<ExpressionSpec, Fault>
    ensures { ExpressionIs text.now words.now (read_expression judged text.now depth limit (spans_from words.now at)) at result }
{
    let (left, start) = parse_tilde(words, at)?;
    let (name, from) = parse_name(text, words, start, depth, judged)?;
    let parts = Parts { from, limit, depth };
    parse_parts(text, words, left, name, parts, judged)
}

// A subexpression, behind its tag 27 that ends at the limit: one fewer may be opened inside it.
#[cycle(readers)]
#[tactic(auto, using(crate::proofs::Equations::subexpression_deep, crate::proofs::Equations::subexpression_inside))]
pub fn parse_subexpression(
    text: &[u8],
    words: &[u32],
    at: usize,
    limit: usize,
    depth: usize,
    judged: bool,
) -> Result<(Parameter, usize), Fault>
    ensures { ParamIs text.now words.now (read_subexpression judged text.now depth limit (spans_from words.now at)) at result }
{
    if depth == 0 {
        return Err(Fault::OverLimit);
    }
    let inside = depth - 1;
    let x = parse_expression(text, words, at, limit, inside, judged)?;
    let link = Subexpression {
        from: at,
        limit,
        depth: inside,
    };
    Ok((Parameter::Subexpression(link), x.next))
}
