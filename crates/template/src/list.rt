// What the walk lists its tree with: document 01's forms, an element at a time.
ghost use Rattle.std.specs.Prelude.{◌≤◌, ◌<◌, ◌≡◌, [], ◌++◌, ◌&&◌, not, length};
ghost use Rattle.support.specs.Bytes.{ascii};
ghost use Rattle.listing.specs.Quoted.{quoted};
ghost use Rattle.listing.specs.Form.{write_field, write_form, write_forms};
ghost use Rattle.listing.specs.Tree as Tree;
ghost use Rattle.listing.specs.Listing.{bit, place_field, indent_field, item_form};
ghost use Rattle.listing.specs.Children.{helper_children};
ghost use Rattle.listing.specs.Wrote.{Wrote};
ghost use Rattle.template.specs.Element.{place_means, link_of, raw_means, comment_means, indent_means, head_at, RawGood, Sound};
ghost use Rattle.template.specs.Opening.{block_opening, decorated_bytes, opening, waits, body_end};

use crate::element::{
    Comment, DecoratorTemplate, Element, HelperTemplate, RawString, TemplateElement,
};
use crate::input::Input;
use crate::raw::write_raw;
use expression::parameter::Subexpression;
use listing::writer::Writer;
use support::bytes::part;
use support::position::Place;
use support::str::{find_trailing_whitespace_chars, hbs_comment_compact_text, hbs_comment_text};

// A block of which the body, or the else, is being listed.
#[derive(Clone, Copy)]
pub struct Waiting {
    pub block: usize,
    pub inverse: bool,
}

impl Waiting {
    pub const EMPTY: Waiting = Waiting {
        block: 0,
        inverse: false,
    };

    pub(crate) fn new(block: usize, inverse: bool) -> Waiting
        ensures { result ≡ waits block inverse }
    {
        Waiting { block, inverse }
    }
}

fn link_of(from: usize, limit: usize) -> Subexpression
    ensures { result ≡ link_of from limit }
{
    Subexpression {
        from,
        limit,
        depth: Subexpression::LIMIT,
    }
}

// P: line:column or `-`.
// Stays: the writer, the input and the place are apart, here and below: each writer takes those that it needs.
// Stays: line 0 for no place, as the store is filled with; line numbers begin with 1.
fn write_place(w: &mut Writer, p: Place)
    ensures { Wrote (write_field (place_field (place_means p))) w.old w.new }
{
    if p.line == 0 {
        return w.put_bytes(b"-");
    }
    w.write_decimal(p.line as usize);
    w.put_bytes(b":");
    w.write_decimal(p.column as usize);
}

// c or i, after a space.
// Stays: beside `write_end`, since the two share one test and write other texts.
fn write_bit(w: &mut Writer, b: bool)
    ensures { Wrote (ascii " " ++ write_field (bit b)) w.old w.new }
{
    if b {
        return w.put_bytes(b" 1");
    }
    w.put_bytes(b" 0");
}

fn write_comment_text(w: &mut Writer, text: &[u8], c: Comment)
    ensures { Wrote (quoted (comment_means text.now [] c)) w.old w.new }
{
    let own = part(text, c.start, c.end);
    if c.compact {
        return w.write_quoted(hbs_comment_compact_text(own));
    }
    w.write_quoted(hbs_comment_text(own));
}

// d: the kept indent or `-`, after a space.
fn write_indent(w: &mut Writer, text: &[u8], d: DecoratorTemplate)
    ensures { Wrote (ascii " " ++ write_field (indent_field (indent_means text.now [] d))) w.old w.new }
{
    let Some(end) = d.indent else {
        return w.put_bytes(b" -");
    };
    let blanks = find_trailing_whitespace_chars(part(text, 0, end as usize));
    if blanks.len() == 0 {
        return w.put_bytes(b" -");
    }
    w.put_bytes(b" ");
    w.write_quoted(blanks);
}

fn write_text(w: &mut Writer, input: &Input, place: Place, r: RawString)
    requires { RawGood input.now.text.now input.now.words.now r }
    ensures { Wrote (write_form (item_form (place_field (place_means place)) (Tree.text (raw_means input.now.text.now input.now.words.now r)))) w.old w.new }
{
    w.put_bytes(b"[text ");
    write_place(w, place);
    w.put_bytes(b" ");
    write_raw(w, input, r);
    w.put_bytes(b"]\n");
}

// Stays: beside `write_text`, since what they quote is made in different ways; a closure for it would be no shorter.
fn write_comment(w: &mut Writer, text: &[u8], place: Place, c: Comment)
    ensures { Wrote (write_form (item_form (place_field (place_means place)) (Tree.comment (comment_means text.now [] c)))) w.old w.new }
{
    w.put_bytes(b"[comment ");
    write_place(w, place);
    w.put_bytes(b" ");
    write_comment_text(w, text, c);
    w.put_bytes(b"]\n");
}

// An expression, from its word.
// Stays: beside `write_decorated`, which writes two fields more and other children.
fn write_expression(w: &mut Writer, input: &Input, word: &[u8], place: Place, h: HelperTemplate)
    ensures { Wrote (word.now ++ (write_field (place_field (place_means place)) ++ (ascii "\n" ++ (write_forms (helper_children input.now.text.now input.now.words.now (link_of h.from h.limit)) ++ ascii "]\n")))) w.old w.new }
{
    w.put_bytes(word);
    write_place(w, place);
    w.put_bytes(b"\n");
    w.write_helper(input.text, input.words, link_of(h.from, h.limit));
    w.put_bytes(b"]\n");
}

// A block up to its body.
fn write_block(w: &mut Writer, input: &Input, place: Place, chain: bool, h: HelperTemplate)
    ensures { Wrote (block_opening (place_field (place_means place)) chain (head_at input.now.text.now input.now.words.now h)) w.old w.new }
{
    w.put_bytes(b"[block ");
    write_place(w, place);
    write_bit(w, chain);
    write_bit(w, h.indent_before_write);
    w.put_bytes(b"\n");
    w.write_helper(input.text, input.words, link_of(h.from, h.limit));
    w.put_bytes(b"[body\n");
}

// A decorator or a partial, from its word up to its end or its body.
fn write_decorated(w: &mut Writer, input: &Input, word: &[u8], place: Place, d: DecoratorTemplate)
    ensures { Wrote (word.now ++ decorated_bytes input.now.text.now input.now.words.now (place_means place) d) w.old w.new }
{
    w.put_bytes(word);
    write_place(w, place);
    write_bit(w, d.indent_before_write);
    write_indent(w, input.text, d);
    w.put_bytes(b"\n");
    w.write_decorator(input.text, input.words, link_of(d.from, d.limit));
}

// An element up to its body, if it has one. What is written is short, so that no listing is too long to be
// counted.
pub(crate) fn write_element(w: &mut Writer, input: &Input, e: Element)
    requires { Sound input.now.text.now input.now.words.now e.name e.element }
    ensures { Wrote (opening input.now.text.now input.now.words.now e) w.old w.new × (length (opening input.now.text.now input.now.words.now e) ≤ 11000000000) }
{
    let p = e.place;
    match e.element {
        TemplateElement::Empty => {}
        TemplateElement::RawString(r) => write_text(w, input, p, r),
        TemplateElement::Comment(c) => write_comment(w, input.text, p, c),
        TemplateElement::Expression(h) => write_expression(w, input, b"[expr ", p, h),
        TemplateElement::HtmlExpression(h) => write_expression(w, input, b"[html ", p, h),
        TemplateElement::HelperBlock(h) => write_block(w, input, p, e.chain, h),
        TemplateElement::DecoratorExpression(d) => {
            write_decorated(w, input, b"[decor ", p, d);
            w.put_bytes(b"]\n");
        }
        TemplateElement::PartialExpression(d) => {
            write_decorated(w, input, b"[partial ", p, d);
            w.put_bytes(b"]\n");
        }
        TemplateElement::DecoratorBlock(d) => {
            write_decorated(w, input, b"[decor-block ", p, d);
            w.put_bytes(b"[body\n");
        }
        TemplateElement::PartialBlock(d) => {
            write_decorated(w, input, b"[partial-block ", p, d);
            w.put_bytes(b"[body\n");
        }
    }
}

// The else is still to be listed.
pub(crate) fn has_else(e: Element, w: Waiting) -> bool
    ensures { result ≡ (e.inverted && not w.inverse) }
{
    e.inverted && !w.inverse
}

// The end of a body: more of the block follows, its else, or the block ends too.
pub(crate) fn write_end(w: &mut Writer, more: bool)
    ensures { Wrote (body_end more) w.old w.new }
{
    if more {
        return w.put_bytes(b"]\n[else\n");
    }
    w.put_bytes(b"]\n]\n");
}
