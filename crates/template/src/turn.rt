// What a turn of the walk does to the store, as values: the element that is made, the owner of the
// open body, the frames, and what joins the body. What does not change is stored again as it was.
ghost use Rattle.std.specs.Prelude.{◌≡◌, ◌≤◌, ◌<◌, length};
ghost use Rattle.template.specs.Element.{empty_element};
ghost use Rattle.template.specs.Turn.{OpenFits, head_of, ref_chain_head, emptied, filled, plain_plan, begin_plan, chain_plan, template_plan, shut_plan, revert_plan, inverse_plan, close_plan, add_plan, act_plan, plan_of, turn_of, JoinedIs, gapped_of, TurnFits, TurnIs};

use crate::element::Element;
use crate::frame::{Frame, Marks, Opened};
use crate::visit::{Act, Added, Here, Step};
use support::position::Place;

// The newest else-if node of an open block, if it has one.
fn chain_head(head: usize) -> Option<usize>
    ensures { result ≡ head_of head }
{
    if head == 0 { None } else { Some(head) }
}

// The element that the open body belongs to: the newest else-if node, or the block.
pub(crate) fn ref_chain_head(block: usize, head: usize) -> usize
    ensures { result ≡ ref_chain_head block head }
{
    let Some(node) = chain_head(head) else {
        return block;
    };
    node
}

// A turn: the act of a span; an else-if node is turned round; the block is complete.
#[derive(Clone, Copy)]
pub enum Turn {
    Act(Act),
    Revert,
    Set,
}

#[derive(Clone, Copy)]
pub struct Plan {
    pub made: Element,
    pub owner: Element,
    pub top: Frame,
    pub put: Frame,
    pub slot: usize,
    pub depth: usize,
    pub len: usize,
    pub count: usize,
    pub join: usize,
    pub closing: bool,
}

// What is open when a turn begins.
// Stays: `OpenFits` is asked in five contracts and is no ghost field, since the laws are for an `Open` with any numbers.
#[derive(Clone, Copy)]
pub struct Open {
    pub top: Frame,
    pub below: Frame,
    pub owner: Element,
    pub depth: usize,
    pub len: usize,
    pub count: usize,
}

// The body on top without elements.
fn emptied(f: Frame, inverted: bool) -> Frame
    ensures { result ≡ emptied f inverted }
{
    Frame {
        first: 0,
        last: 0,
        inverted,
        ..f
    }
}

// The body on top with another first and last element.
fn filled(f: Frame, first: usize, last: usize) -> Frame
    ensures { result ≡ filled f first last }
{
    Frame { first, last, ..f }
}

// Nothing happens, or `join` joins the body on top.
// Stays: functions of an `Open`, here and below. As methods they would read the same.
// Stays: field by field, since a plan has other names than `Open`, and more of them.
fn plain(o: Open, made: Element, len: usize, join: usize) -> Plan
    ensures { result ≡ plain_plan o made len join }
{
    Plan {
        made,
        owner: o.owner,
        top: o.top,
        put: o.below,
        slot: o.depth.saturating_sub(1),
        depth: o.depth,
        len,
        count: o.count,
        join,
        closing: false,
    }
}

// Nothing happens and nothing is made.
fn still(o: Open) -> Plan
    ensures { result ≡ plain_plan o empty_element o.len 0 }
{
    plain(o, Element::EMPTY, o.len, 0)
}

fn begin(o: Open, made: Element, opened: Opened) -> Plan
    requires { OpenFits o }
    ensures { result ≡ begin_plan o made opened }
{
    Plan {
        top: Frame::new(opened, o.len),
        put: o.top,
        slot: o.depth,
        depth: o.depth + 1,
        count: o.count + 1,
        ..plain(o, made, o.len + 1, 0)
    }
}

// The open body becomes its owner's; the next branch begins.
fn chain(o: Open, made: Element) -> Plan
    requires { OpenFits o }
    ensures { result ≡ chain_plan o made }
{
    Plan {
        owner: o.owner.set_template(o.top.first),
        top: Frame {
            head: o.len,
            chain: true,
            ..emptied(o.top, false)
        },
        count: o.count + 1,
        ..plain(o, made.insert_inverse_node(o.top.head), o.len + 1, 0)
    }
}

// The open body becomes its owner's; another, or none, is open then.
fn set_chain_template(o: Open, inverted: bool, closing: bool) -> Plan
    ensures { result ≡ template_plan o inverted closing }
{
    Plan {
        owner: o.owner.set_template(o.top.first),
        top: emptied(o.top, inverted),
        closing,
        ..still(o)
    }
}

// The plain else's body stays in the frame: it is what has been turned so far.
fn shut(o: Open) -> Plan
    ensures { result ≡ shut_plan o }
{
    Plan {
        closing: true,
        ..still(o)
    }
}

// The newest else-if node gets what has been turned so far as its else, and is that itself then.
fn revert_chain(o: Open) -> Plan
    ensures { result ≡ revert_plan o }
{
    Plan {
        owner: o.owner.set_inverse(o.top.first, o.top.inverted, true),
        top: Frame {
            head: o.owner.inverse,
            inverted: true,
            ..filled(o.top, o.top.head, 0)
        },
        count: o.count.saturating_sub(1),
        closing: true,
        ..still(o)
    }
}

// The block gets what has been turned as its else, and joins the body around it.
fn set_inverse(o: Open) -> Plan
    ensures { result ≡ inverse_plan o }
{
    Plan {
        owner: o
            .owner
            .set_inverse(o.top.first, o.top.inverted, o.top.chain),
        top: o.below,
        depth: o.depth.saturating_sub(1),
        count: o.count.saturating_sub(1),
        join: o.top.block,
        ..still(o)
    }
}

fn close(o: Open) -> Plan
    ensures { result ≡ close_plan o }
{
    if o.top.inverted {
        shut(o)
    } else {
        set_chain_template(o, false, true)
    }
}

fn plan_add(e: Element, added: Added, o: Open) -> Plan
    requires { OpenFits o }
    ensures { result ≡ add_plan e added o }
{
    match added {
        Added::Leaf => plain(o, e, o.len + 1, o.len),
        Added::Block(opened) => begin(o, e, opened),
        Added::ElseIf => chain(o, e),
    }
}

fn plan_act(a: Act, o: Open) -> Plan
    requires { OpenFits o }
    ensures { result ≡ act_plan a o }
{
    match a {
        Act::Skip => still(o),
        Act::Add(e, added) => plan_add(e, added, o),
        Act::Else => set_chain_template(o, true, false),
        Act::Close => close(o),
    }
}

pub(crate) fn plan_of(t: Turn, o: Open) -> Plan
    requires { OpenFits o }
    ensures { result ≡ plan_of t o }
{
    match t {
        Turn::Act(a) => plan_act(a, o),
        Turn::Revert => revert_chain(o),
        Turn::Set => set_inverse(o),
    }
}

// While a block closes, its newest else-if node is turned round, or it is complete.
pub(crate) fn turn_of(closing: bool, head: usize, act: Act) -> Turn
    ensures { result ≡ turn_of closing head act }
{
    if !closing {
        return Turn::Act(act);
    }
    let Some(_) = chain_head(head) else {
        return Turn::Set;
    };
    Turn::Revert
}

// The frame with the element at `at`, if there is one, behind the last one of its body.
pub(crate) fn join(elements: &mut [Element], top: Frame, at: usize) -> Frame
    requires { top.last < length elements.old }
    ensures { JoinedIs elements.old top at elements.new result }
{
    if at == 0 {
        top
    } else if top.last == 0 {
        filled(top, at, at)
    } else {
        elements[top.last] = elements[top.last].followed_by(at);
        filled(top, top.first, at)
    }
}

// The gap's element joins the body on top, if it is kept.
#[derive(Clone, Copy)]
pub struct Gapped {
    pub made: Element,
    pub len: usize,
    pub join: usize,
}

pub(crate) fn take_gap(gap: Option<Element>, len: usize) -> Gapped
    requires { len ≤ 8192 }
    ensures { result ≡ gapped_of gap len }
{
    match gap {
        Some(made) => Gapped {
            made,
            len: len + 1,
            join: len,
        },
        None => Gapped {
            made: Element::EMPTY,
            len,
            join: 0,
        },
    }
}

// Where the walk stands: the body on top, the marks, the place found last; how many bodies are around that
// body, how many elements there are, and how many blocks with their else-ifs are open; whether a block closes;
// the number of the next span.
// Stays: `len` and `depth` are numbers beside the store and the frames, and no stack's: a turn writes the cells there also
// where it keeps nothing in them.
#[derive(Clone, Copy)]
pub struct Standing {
    pub top: Frame,
    pub marks: Marks,
    pub here: Here,
    pub depth: usize,
    pub len: usize,
    pub count: usize,
    pub closing: bool,
    pub at: usize,
}

impl Standing {
    pub const FIRST: Standing = Standing {
        top: Frame::EMPTY,
        marks: Marks::FIRST,
        here: Here {
            place: Place { line: 1, column: 1 },
            at: 0,
        },
        depth: 0,
        len: 1,
        count: 0,
        closing: false,
        at: 0,
    };
}

// A turn: the gap joins the body on top, the last text is trimmed, then the act. The store and the frames
// are written at every turn, with what was there where nothing changes.
pub(crate) fn take_turn(
    elements: &mut [Element],
    levels: &mut [Frame],
    b: Standing,
    s: Step,
) -> Standing
    requires { TurnFits elements.old levels.old b s }
    ensures { TurnIs elements.old levels.old b s elements.new levels.new result }
{
    let g = take_gap(s.gap, b.len);
    elements[b.len] = g.made;
    let top = join(elements, b.top, g.join);
    elements[top.last] = elements[top.last].trim_end(s.back);
    let owner = ref_chain_head(top.block, top.head);
    let p = plan_of(
        turn_of(b.closing, top.head, s.act),
        Open {
            top,
            below: levels[b.depth.saturating_sub(1)],
            owner: elements[owner],
            depth: b.depth,
            len: g.len,
            count: b.count,
        },
    );
    elements[g.len] = p.made;
    elements[owner] = p.owner;
    levels[p.slot] = p.put;
    let next = join(elements, p.top, p.join);
    Standing {
        top: next,
        marks: s.marks,
        here: s.here,
        depth: p.depth,
        len: p.len,
        count: p.count,
        closing: p.closing,
        at: s.next,
    }
}
