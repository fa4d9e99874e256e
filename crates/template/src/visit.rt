// What a walked span does: why it turns the card away, or the step that it makes.
ghost use Rattle.std.specs.Prelude.{◌≡◌, List, Bool, true, false, ◌&&◌, ◌||◌, not, ℕ, ◌+◌, ◌≤◌, ◌<◌, ◌^◌, Ok, eqb, length, drop};
ghost use Rattle.support.specs.Bytes.{Bytes, if, is_empty};
ghost use Rattle.support.specs.TextRules.{starts_with_empty_line};
ghost use Rattle.json_path.specs.Span.{span_count};
ghost use Rattle.json_path.specs.Answers.{Walked};
ghost use Rattle.template.specs.Kind.{plain, skipped, kind_of};
ghost use Rattle.template.specs.Step.{after_gap, standalone};
ghost use Rattle.template.specs.Element.{new_element};
ghost use Rattle.template.specs.Visit.{stage_means, some_step, VisitIs};
ghost use Rattle.template.specs.Turn.{still_step};
ghost use Rattle.template.specs.Deciding.{Decides};
ghost use Rattle.template.specs.Visiting.{TagMakes, AdvanceIs, front_of, raw_front, gap_element, text_step, trim_of, helper_of, decorator_of, CutIs, LineIs, StageIs, ElementIs, BeginIs, ActIs, IndentIs, RefusalIs};

use crate::element::{
    Back, Comment, DecoratorTemplate, Element, Front, HelperTemplate, RawString, TemplateElement,
};
use crate::frame::{Marks, Opened, Stage};
use crate::input::{Input, Visit};
use crate::reason::{
    bad_escapes, decorator_name_differs, fault_place, helper_name_differs, kept_gap, nests,
    too_many_open,
};
use crate::refusal::{Reason, Refusal};
use crate::tag::{TagExpression, read_tag};
use json_path::path::Name;
use json_path::span::{Span, span_count};
use support::bytes::part;
use support::position::{Place, line_col};

#[derive(Clone, Copy)]
pub struct Options {
    pub prevent_indent: bool,
    pub is_partial: bool,
}

// The place of the offset `at`.
#[derive(Clone, Copy)]
pub struct Here {
    pub place: Place,
    pub at: usize,
}

// What the walk knows where it is: the marks; of the innermost body its kind, whether it is a plain
// else and its opening tag's name; open blocks with their else-ifs; the last place found.
#[derive(Clone, Copy)]
pub struct View {
    pub marks: Marks,
    pub opened: Opened,
    pub inverted: bool,
    pub name: Option<Name>,
    pub count: usize,
    pub here: Here,
}

// What an element is that is added: one of the innermost body; a block, which opens; an else-if's node,
// whose branch begins.
#[derive(Clone, Copy)]
pub enum Added {
    Leaf,
    Block(Opened),
    ElseIf,
}

// What is done to the tree: nothing; an element is added; a plain else begins; the innermost block
// closes.
#[derive(Clone, Copy)]
pub enum Act {
    Skip,
    Add(Element, Added),
    Else,
    Close,
}

// First the gap, if it is kept, joins the innermost body, then its last text is trimmed, then the act.
#[derive(Clone, Copy)]
pub struct Step {
    pub gap: Option<Element>,
    pub back: Back,
    pub act: Act,
    pub marks: Marks,
    pub here: Here,
    pub next: usize,
}

impl Step {
    // Nothing happens, and the next span is that at `at`.
    pub(crate) fn still(v: View, at: usize) -> Step
        ensures { result ≡ still_step v at }
    {
        Step {
            gap: None,
            back: Back::Kept,
            act: Act::Skip,
            marks: v.marks,
            here: v.here,
            next: at,
        }
    }
}

// The place of a later offset.
fn advance(text: &[u8], here: Here, to: usize) -> Here
    ensures { AdvanceIs text.now here to result }
{
    Here {
        place: line_col(here.place, part(text, here.at, to)),
        at: to,
    }
}

// The first holds and the second does not.
fn but_not(a: bool, b: bool) -> bool
    ensures { result ≡ (a && not b) }
{
    a && !b
}

fn front_of(m: Marks) -> Front
    ensures { result ≡ front_of m }
{
    if m.trim_line_required {
        return Front::Line;
    }
    Front::Kept
}

// A raw block that waits takes the gap as its body.
fn stage_after_gap(g: Stage, gap: bool) -> Stage
    ensures { stage_means result ≡ if gap (after_gap (stage_means g)) (stage_means g) }
{
    if !gap {
        return g;
    }
    match g {
        Stage::Waiting => Stage::Full,
        Stage::Filling => Stage::Filling,
        Stage::Full => Stage::Full,
    }
}

fn raw_front(m: Marks) -> Front
    ensures { result ≡ raw_front m }
{
    if m.omit_pro_ws {
        return Front::White;
    }
    front_of(m)
}

// How the last text is trimmed: by a left tilde, or by the standalone test.
fn trim_of(left: bool, cut: bool) -> Back
    ensures { result ≡ trim_of left cut }
{
    if left {
        return Back::White;
    }
    if cut {
        return Back::Blanks;
    }
    Back::Kept
}

fn comment_of(s: Span, place: Place) -> Element
    ensures { result ≡ new_element (TemplateElement.Comment (record { start = s.start; end = s.end; compact = eqb s.tag 19 })) place }
{
    Element::new(
        TemplateElement::Comment(Comment {
            start: s.start,
            end: s.end,
            compact: s.tag == 19,
        }),
        place,
    )
}

fn helper(x: TagExpression, s: Span, indent: bool) -> HelperTemplate
    ensures { result ≡ helper_of x s indent }
{
    HelperTemplate {
        from: x.from,
        limit: s.end,
        indent_before_write: indent,
    }
}

fn decorator(x: TagExpression, s: Span, mark: bool, indent: bool) -> DecoratorTemplate
    requires { s.start < 2 ^ 32 }
    ensures { result ≡ decorator_of x s mark indent }
{
    DecoratorTemplate {
        from: x.from,
        limit: s.end,
        indent_before_write: mark,
        indent: indent.then_some(s.start as u32),
    }
}

// The element that a tag makes; `mark`: the indent mark, `indent`: blanks are kept.
// Stays: here and below a tag is a number, as document 01's match over it has ranges: an enum would name 20 tags where these
// name a few ranges.
fn element_of(s: Span, x: TagExpression, mark: bool, indent: bool) -> TemplateElement
    requires { s.start < 2 ^ 32 }
    ensures { ElementIs s x mark indent result }
{
    let h = helper(x, s, mark);
    let d = decorator(x, s, mark, indent);
    match s.tag {
        5..=6 => TemplateElement::HelperBlock(h),
        7 => TemplateElement::DecoratorBlock(d),
        8 => TemplateElement::PartialBlock(d),
        10 => TemplateElement::HelperBlock(h),
        11 => TemplateElement::Expression(h),
        12 => TemplateElement::HtmlExpression(h),
        13 => TemplateElement::DecoratorExpression(d),
        14 => TemplateElement::PartialExpression(d),
        _ => TemplateElement::Empty,
    }
}

// Whose body a block start opens.
// Stays: the bounds of a tag, here and below, are asked of those to which `visit_kind`'s match leads.
fn opened_of(tag: u32) -> Opened
    requires first_tag { 5 ≤ tag }
    requires last_tag { tag ≤ 8 }
    ensures { BeginIs tag result }
{
    match tag {
        5 => Opened::Helper,
        6 => Opened::Raw,
        7 => Opened::Decorator,
        _ => Opened::Partial,
    }
}

// What a tag does with its element after its gap and trims.
fn act_of(tag: u32, e: Element) -> Act
    requires first_tag { 5 ≤ tag }
    requires last_tag { tag ≤ 18 }
    ensures { ActIs tag e result }
{
    match tag {
        5..=8 => Act::Add(e, Added::Block(opened_of(tag))),
        9 => Act::Else,
        10 => Act::Add(e, Added::ElseIf),
        11..=14 => Act::Add(e, Added::Leaf),
        _ => Act::Close,
    }
}

// Tag 14 keeps the blanks before it as indent.
fn is_indented(tag: u32, prevent_indent: bool, left: bool) -> bool
    ensures { IndentIs tag prevent_indent left result }
{
    match tag {
        14 => !prevent_indent && !left,
        _ => false,
    }
}

// The stage after a tag: block starts and else tags wait for a body.
fn stage_of(tag: u32) -> Stage
    ensures { StageIs tag result }
{
    match tag {
        5..=10 => Stage::Waiting,
        _ => Stage::Filling,
    }
}

// The standalone test cuts the last blanks: not for tags 11 and 12, nor for 14 under `prevent_indent`.
fn is_cut(tag: u32, standalone: bool, prevent_indent: bool) -> bool
    ensures { CutIs tag standalone prevent_indent result }
{
    match tag {
        11..=12 => false,
        14 => standalone && !prevent_indent,
        _ => standalone,
    }
}

// The line mark after a tag: tags 11 and 12 are not tested.
fn line_mark(tag: u32, standalone: bool, line: bool) -> bool
    ensures { LineIs tag standalone line result }
{
    match tag {
        11..=12 => line,
        _ => standalone,
    }
}

// 12, 10 or 11, in this order.
fn refusal_of(
    text: &[u8],
    tag: u32,
    count: usize,
    opened: Option<Name>,
    end: Option<Name>,
) -> Option<Reason>
    ensures { RefusalIs text.now tag count opened end result }
{
    if too_many_open(tag, count) {
        return Some(Reason::OverLimit);
    }
    if helper_name_differs(text, tag, opened, end) {
        return Some(Reason::HelperName);
    }
    if decorator_name_differs(text, tag, opened, end) {
        return Some(Reason::DecoratorName);
    }
    None
}

impl Visit<'_> {
    // The gap before the span, as a text, if it is kept.
    fn gap_of(&self) -> Option<Element>
        ensures { result ≡ gap_element self.now.input.now.words.now self.now.view.marks self.now.span self.now.here.place self.now.gap }
    {
        if !self.gap {
            return None;
        }
        let m = self.view.marks;
        Some(Element::new(
            TemplateElement::RawString(RawString {
                start: m.prev_end(),
                end: self.span.start,
                escapes: span_count(self.input.words),
                front: front_of(m),
                back: Back::Kept,
            }),
            self.here.place,
        ))
    }

    fn skipped(&self) -> Step
        requires { kind_of self.now.span.tag ≡ plain skipped }
        ensures { Decides self.now (Ok result) }
    {
        let m = self.view.marks;
        Step {
            gap: self.gap_of(),
            back: Back::Kept,
            act: Act::Skip,
            marks: Marks {
                stage: stage_after_gap(m.stage, self.gap),
                end_pos: Some(self.span.end),
                trim_line_required: but_not(m.trim_line_required, self.gap),
                ..m
            },
            here: self.here,
            next: self.span.number + 1,
        }
    }

    // A template span gives the body that is waited for; it does not become the previous one.
    fn template(&self) -> Step
        requires { self.now.span.tag ≡ 1 }
        ensures { Decides self.now (Ok result) }
    {
        Step {
            gap: None,
            back: Back::Kept,
            act: Act::Skip,
            marks: Marks {
                stage: Stage::Filling,
                ..self.view.marks
            },
            here: self.view.here,
            next: self.span.number + 1,
        }
    }

    // The step of a text from `start` on; after it this stage and this line mark.
    fn text_step(&self, start: usize, stage: Stage, line: bool) -> Step
        ensures { result ≡ text_step self.now.view self.now.span self.now.here start stage line }
    {
        let m = self.view.marks;
        let e = Element::new(
            TemplateElement::RawString(RawString {
                start,
                end: self.span.end,
                escapes: self.span.number + 1,
                front: raw_front(m),
                back: Back::Kept,
            }),
            self.here.place,
        );
        Step {
            gap: None,
            back: Back::Kept,
            act: Act::Add(e, Added::Leaf),
            marks: Marks {
                stage,
                end_pos: Some(self.span.end),
                trim_line_required: line,
                ..m
            },
            here: self.here,
            next: self.span.number + 1,
        }
    }

    // The text of tag 2 begins at the previous end. That of tag 3 is its own span; a raw body takes nothing more.
    fn raw_string(&self) -> Result<Step, Refusal>
        requires first_tag { 2 ≤ self.now.span.tag }
        requires last_tag { self.now.span.tag ≤ 3 }
        ensures { Decides self.now result }
    {
        let s = self.span;
        let m = self.view.marks;
        let is_block = s.tag == 3;
        let start = if is_block { s.start } else { m.prev_end() };
        if bad_escapes(self.input, start, s.end, s.number + 1) {
            return Err(Refusal {
                reason: Reason::BadEscape,
                place: s.number,
            });
        }
        if is_block {
            Ok(self.text_step(start, Stage::Full, m.trim_line_required))
        } else {
            Ok(self.text_step(start, Stage::Filling, false))
        }
    }

    // An empty line starts after the tag, or nothing at all follows and it is no partial.
    fn with_trailing_newline(&self) -> bool
        ensures { result ≡ (starts_with_empty_line (drop self.now.span.end self.now.input.now.text.now) || (is_empty (drop self.now.span.end self.now.input.now.text.now) && not self.now.input.now.options.is_partial)) }
    {
        let input = self.input;
        if input.starts[self.span.end] {
            return true;
        }
        if self.span.end == input.text.len() {
            return !input.options.is_partial;
        }
        false
    }

    // And an empty line ends before it.
    fn process_standalone_statement(&self) -> bool
        ensures { result ≡ standalone self.now.input.now.text.now self.now.input.now.options.is_partial self.now.span }
    {
        if !self.with_trailing_newline() {
            return false;
        }
        self.input.ends[self.span.start]
    }

    fn comment(&self) -> Step
        requires first_tag { 19 ≤ self.now.span.tag }
        requires last_tag { self.now.span.tag ≤ 20 }
        ensures { Decides self.now (Ok result) }
    {
        let m = self.view.marks;
        let standalone = self.process_standalone_statement();
        let e = comment_of(self.span, self.here.place);
        Step {
            gap: self.gap_of(),
            back: trim_of(false, standalone),
            act: Act::Add(e, Added::Leaf),
            marks: Marks {
                stage: stage_after_gap(m.stage, self.gap),
                end_pos: Some(self.span.end),
                trim_line_required: standalone,
                ..m
            },
            here: self.here,
            next: self.span.number + 1,
        }
    }

    // The step of a tag whose expression was read.
    fn step_of(&self, x: TagExpression) -> Step
        requires first_tag { 5 ≤ self.now.span.tag }
        requires last_tag { self.now.span.tag ≤ 18 }
        ensures { TagMakes self.now.input.now.text.now self.now.input.now.words.now self.now.input.now.options self.now.view self.now.span x self.now.gap self.now.here result }
    {
        let s = self.span;
        let m = self.view.marks;
        let prevent_indent = self.input.options.prevent_indent;
        let standalone = self.process_standalone_statement();
        let line = but_not(m.trim_line_required, self.gap);
        let mark = but_not(standalone, x.omit_pre_ws);
        let indent = is_indented(s.tag, prevent_indent, x.omit_pre_ws);
        let cut = is_cut(s.tag, standalone, prevent_indent);
        let e = Element::named(element_of(s, x, mark, indent), x.name, self.here.place);
        Step {
            gap: self.gap_of(),
            back: trim_of(x.omit_pre_ws, cut),
            act: act_of(s.tag, e),
            marks: Marks {
                stage: stage_of(s.tag),
                end_pos: Some(s.end),
                omit_pro_ws: x.omit_pro_ws,
                trim_line_required: line_mark(s.tag, standalone, line),
            },
            here: self.here,
            next: x.next,
        }
    }

    // 8, 9 and 12 as met, open blocks last; 10, 11.
    fn tagged(&self) -> Result<Step, Refusal>
        requires first_tag { 5 ≤ self.now.span.tag }
        requires last_tag { self.now.span.tag ≤ 18 }
        ensures { Decides self.now result }
    {
        let input = self.input;
        let s = self.span;
        match read_tag(self) {
            Err(f) => Err(Refusal {
                reason: Reason::from(f),
                place: fault_place(span_count(input.words), s, f),
            }),
            Ok(x) => {
                let end = x.name.as_name();
                let opened = self.view.name;
                if let Some(reason) = refusal_of(input.text, s.tag, self.view.count, opened, end) {
                    return Err(Refusal {
                        reason,
                        place: s.number,
                    });
                }
                Ok(self.step_of(x))
            }
        }
    }

    // What is decided of a span after 6 and 7, by its tag.
    fn visit_kind(&self) -> Result<Step, Refusal>
        ensures { Decides self.now result }
    {
        match self.span.tag {
            1 => Ok(self.template()),
            2..=3 => self.raw_string(),
            5..=18 => self.tagged(),
            19..=20 => Ok(self.comment()),
            _ => Ok(self.skipped()),
        }
    }
}

// A walked span: 6, 7, and then by its tag.
pub(crate) fn visit_span(input: &Input, view: View, span: Span) -> Result<Step, Refusal>
    requires { (at : ℕ) × Walked input.now.words.now at span }
    ensures { (at : ℕ) → Walked input.now.words.now at span → VisitIs input.now.text.now input.now.words.now input.now.options view at (some_step result) }
{
    let m = view.marks;
    if span.start < m.prev_end() {
        return Err(Refusal {
            reason: Reason::OutOfOrder,
            place: span.number,
        });
    }
    let gap = kept_gap(m, span);
    if !nests(m.stage, view.opened, view.inverted, span.tag, gap) {
        return Err(Refusal {
            reason: Reason::BadNesting,
            place: span.number,
        });
    }
    let here = advance(input.text, view.here, span.start);
    let visit = Visit {
        input,
        view,
        span,
        gap,
        here,
    };
    visit.visit_kind()
}
