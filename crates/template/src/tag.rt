// The expression of a tag, read from the spans after it, with its literals judged.
ghost use Rattle.std.specs.Prelude.{◌≡◌};
ghost use Rattle.template.specs.TagRead.{OwnReadIs, TagReadIs};

use crate::input::{Input, Visit};
use expression::parameter::{Fault, Parameter, Subexpression};
use expression::parse::{parse_expression, parse_name, parse_tilde};

// Tildes, name, the number from which the expression is read, and the one behind it.
#[derive(Clone, Copy)]
pub struct TagExpression {
    pub omit_pre_ws: bool,
    pub omit_pro_ws: bool,
    pub name: Parameter,
    pub from: usize,
    pub next: usize,
}

// From number `from` on up to the limit; `left`: a left tilde stood before.
fn read_own(input: &Input, from: usize, limit: usize, left: bool) -> Result<TagExpression, Fault>
    ensures { OwnReadIs input.now.text.now input.now.words.now from limit left result }
{
    let x = parse_expression(
        input.text,
        input.words,
        from,
        limit,
        Subexpression::LIMIT,
        true,
    )?;
    Ok(TagExpression {
        omit_pre_ws: left || x.omit_pre_ws,
        omit_pro_ws: x.omit_pro_ws,
        name: x.name,
        from,
        next: x.next,
    })
}

// Tag 10 takes a left tilde, a name, then its expression.
fn read_chain(visit: &Visit) -> Result<TagExpression, Fault>
    ensures { visit.now.span.tag ≡ 10 → TagReadIs visit.now.input.now.text.now visit.now.input.now.words.now visit.now.span result }
{
    let input = visit.input;
    let (left, at) = parse_tilde(input.words, visit.span.number + 1)?;
    let (_, next) = parse_name(input.text, input.words, at, Subexpression::LIMIT, true)?;
    read_own(input, next, visit.span.end, left)
}

pub(crate) fn read_tag(visit: &Visit) -> Result<TagExpression, Fault>
    ensures { TagReadIs visit.now.input.now.text.now visit.now.input.now.words.now visit.now.span result }
{
    let s = visit.span;
    if s.tag == 10 {
        return read_chain(visit);
    }
    read_own(visit.input, s.number + 1, s.end, false)
}
