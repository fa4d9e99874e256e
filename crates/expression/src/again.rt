// Reading again, from the links of an expression: its parameters in order, its keys in byte order, a
// repeated key with its last value, and into a subexpression. (Its block parameter is in its record.)
// Literals were judged when they were first read.
// Stays: `text` and `words` are two parameters, as in parse.rt.
ghost use Rattle.std.specs.Prelude.{◌≡◌};
ghost use Rattle.support.specs.Bytes.{precedes};
ghost use Rattle.json_path.specs.Answers.{name_means};
ghost use Rattle.expression.specs.Again.{ParamStepIs, KeyStepIs, SubexpressionIs, bound_means, is_above};
ghost use Rattle.expression.specs.Least.{LeastIs};

use crate::parameter::{ExpressionSpec, Fault, Hash, Parameter, Part, Parts, Subexpression};
use crate::parse::{next_part, parse_expression};
use json_path::path::Name;
use support::bytes::precedes;

// The first parameter of a link's parts and the link to the parts after it, or there is none. A part
// before it that cannot be read is a fault.
pub fn next_param(
    text: &[u8],
    words: &[u32],
    parts: Parts,
) -> Result<Option<(Parameter, Parts)>, Fault>
    ensures { ParamStepIs text.now words.now parts result }
{
    let mut rest = parts;
    while let Some((x, after)) = next_part(text, words, rest, false)? {
        if let Part::Param(v) = x {
            return Ok(Some((v, after)));
        }
        rest = after;
    }
    Ok(None)
}

// `a` stands before `b` in byte order.
fn stands_before(text: &[u8], a: Name, b: Name) -> bool
    ensures { result ≡ precedes (name_means text.now a) (name_means text.now b) }
{
    precedes(a.text(text), b.text(text))
}

// Without a bound every key is above it.
fn is_above(text: &[u8], bound: Option<Name>, key: Name) -> bool
    ensures { result ≡ is_above (bound_means text.now bound) (name_means text.now key) }
{
    bound.is_none_or(|b| stands_before(text, b, key))
}

// The least key above the bound after one more part; of the same key the later.
fn least_then(text: &[u8], bound: Option<Name>, least: Option<Hash>, x: Part) -> Option<Hash>
    ensures { LeastIs text.now bound least x result }
{
    let Part::Hash(h) = x else {
        return least;
    };
    if !is_above(text, bound, h.key) {
        return least;
    }
    match least {
        Some(l) if stands_before(text, l.key, h.key) => least,
        _ => Some(h),
    }
}

// The first key above a bound, with its last value: one pass over the link's parts. The others are
// those above it.
pub fn next_key(
    text: &[u8],
    words: &[u32],
    parts: Parts,
    bound: Option<Name>,
) -> Result<Option<Hash>, Fault>
    ensures { KeyStepIs text.now words.now parts bound result }
{
    let mut rest = parts;
    let mut least = None;
    while let Some((x, next)) = next_part(text, words, rest, false)? {
        least = least_then(text, bound, least, x);
        rest = next;
    }
    Ok(least)
}

// The expression of a subexpression's link.
#[tactic(auto, unfolding(crate::specs::Answers::param_means, crate::specs::Answers::expression_means))]
pub fn enter(text: &[u8], words: &[u32], s: Subexpression) -> Result<ExpressionSpec, Fault>
    ensures { SubexpressionIs text.now words.now s result }
{
    parse_expression(text, words, s.from, s.limit, s.depth, false)
}
