// The walk: it holds the store.
ghost use Rattle.std.specs.Prelude.{◌≡◌, ◌*◌, ◌≤◌, ◌<◌};
ghost use Rattle.json_path.specs.Span.{span_count};
ghost use Rattle.template.specs.Finish.{unfinished_at, RestIs, walk_listing, BufferedIs};

use crate::element::{Back, Element, Front, RawString, TemplateElement};
use crate::frame::{Frame, Marks};
use crate::input::Input;
use crate::reason::is_filling;
use crate::refusal::{Reason, Refusal};
use crate::tree::write_tree;
use crate::turn::{Standing, join, take_gap, take_turn};
use crate::visit::{Here, Step, View, visit_span};
use json_path::span::{next_span, span_count};
use support::bytes::part;
use support::position::line_col;

// 7 at the end of the list.
fn unfinished(text: &[u8], m: Marks, depth: usize) -> bool
    ensures { result ≡ unfinished_at text.now m depth }
{
    !is_filling(m.stage) || 0 < depth || m.prev_end() < text.len() && m.end_pos.is_none()
}

// The text after the last previous end, if there is any.
fn rest_of(input: &Input, m: Marks, h: Here) -> Option<Element>
    ensures { RestIs input.now.text.now input.now.words.now m h result }
{
    let from = m.prev_end();
    if from < input.text.len() {
        Some(Element::new(
            TemplateElement::RawString(RawString {
                start: from,
                end: input.text.len(),
                escapes: span_count(input.words),
                front: Front::Kept,
                back: Back::Kept,
            }),
            line_col(h.place, part(input.text, h.at, from)),
        ))
    } else {
        None
    }
}

// Each turn visits a span, or closes a block. At the end of the list the text that is left joins the root's
// body, and the tree is listed. `N` is how many elements the store has: to fill a large one takes longer than
// the work on a small card.
pub(crate) fn walk<const N: usize>(input: &Input, out: &mut [u8]) -> Result<usize, Refusal>
    requires few { 2 * span_count input.now.words.now < N }
    requires size { (1 < N) × (N ≤ 8193) }
    ensures { BufferedIs (walk_listing input.now.text.now input.now.words.now input.now.options) out.old out.new result }
{
    let mut elements = [Element::EMPTY; N];
    let mut levels = [Frame::EMPTY; Frame::LIMIT];
    let mut b = Standing::FIRST;
    // Stays: `loop`, since a block that closes takes turns without a span.
    loop {
        let v = View {
            marks: b.marks,
            opened: b.top.opened,
            inverted: b.top.inverted,
            name: elements[b.top.block].name(),
            count: b.count,
            here: b.here,
        };
        let step = if b.closing {
            Step::still(v, b.at)
        } else {
            let Some(s) = next_span(input.words, b.at) else {
                break;
            };
            visit_span(input, v, s)?
        };
        b = take_turn(&mut elements, &mut levels, b, step);
    }
    if unfinished(input.text, b.marks, b.depth) {
        return Err(Refusal {
            reason: Reason::BadNesting,
            place: span_count(input.words),
        });
    }
    let rest = rest_of(input, b.marks, b.here);
    let g = take_gap(rest, b.len);
    elements[b.len] = g.made;
    let top = join(&mut elements, b.top, g.join);
    Ok(write_tree(out, input, &elements, top.first))
}
