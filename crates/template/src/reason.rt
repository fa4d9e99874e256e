// Why a card is turned away: 1 to 5, asked of the whole input, and those of a walked span.
ghost use Rattle.std.specs.Prelude.{◌≡◌, ◌<◌};
ghost use Rattle.json_path.specs.Span.{escapes_from};
ghost use Rattle.expression.specs.Answers.{fault_means, as_name_means};
ghost use Rattle.template.specs.Checks.{bad_span};
ghost use Rattle.template.specs.Checked.{FirstBadIs, options_read, CheckedIs};
ghost use Rattle.template.specs.Nests.{is_filling, is_waiting, may_end};
ghost use Rattle.template.specs.Escapes.{escapes_to, bad_escape, bad_escapes};
ghost use Rattle.template.specs.Refusal.{fault_place, same_name, is_empty_name};
ghost use Rattle.template.specs.Visit.{stage_means};
ghost use Rattle.template.specs.Asked.{KeptIs, RawIs, TakesIs, OfKindIs, NestsIs, TooManyIs, HelperDiffersIs, DecoratorDiffersIs};

use crate::frame::{Frame, Marks, Opened, Stage};
use crate::input::Input;
use crate::refusal::{Reason, Refusal};
use crate::visit::Options;
use expression::parameter::Fault;
use json_path::path::Name;
use json_path::span::{Span, escape_at, span_at, span_count};
use support::bytes::{byte_at, part, same_bytes};
use support::utf8::{is_char_boundary, valid_up_to};

impl Marks {
    // How many bytes a text may have.
    pub const TEXT: usize = 16384;

    // How many a short one has at most.
    pub const SHORT: usize = 2048;
}

fn bad_span(text: &[u8], s: Span) -> bool
    ensures { result ≡ bad_span text.now s }
{
    if 40 < s.tag {
        return true;
    }
    if s.end < s.start {
        return true;
    }
    if text.len() < s.end {
        return true;
    }
    if !is_char_boundary(text, s.start) {
        return true;
    }
    !is_char_boundary(text, s.end)
}

// The number of the first bad span.
fn first_bad(text: &[u8], words: &[u32]) -> Option<usize>
    ensures { FirstBadIs text.now words.now result }
{
    for k in 0..span_count(words) {
        if bad_span(text, span_at(words, k)) {
            return Some(k);
        }
    }
    None
}

// 1 for `prevent_indent` plus 2 for `is_partial`.
impl TryFrom<u32> for Options {
    type Error = Refusal;

    ghost try_from_gives = { λ n r. r ≡ options_read n };

    fn try_from(n: u32) -> Result<Options, Refusal> {
        if 3 < n {
            return Err(Refusal {
                reason: Reason::Options,
                place: 0,
            });
        }
        Ok(Options {
            prevent_indent: n % 2 == 1,
            is_partial: n / 2 % 2 == 1,
        })
    }
}

// 1 to 5, in order.
// Stays: what a call is lent is apart until it is known to be good, as `Input` says; the options are C's number.
pub(crate) fn checks(text: &[u8], words: &[u32], options: u32) -> Result<Options, Refusal>
    ensures { CheckedIs text.now words.now options result }
{
    let o = Options::try_from(options)?;
    if Marks::TEXT < text.len() {
        return Err(Refusal {
            reason: Reason::TextTooLong,
            place: 0,
        });
    }
    if words.len() % 3 != 0 || Span::LIMIT < span_count(words) {
        return Err(Refusal {
            reason: Reason::SpanList,
            place: 0,
        });
    }
    let valid = valid_up_to(text);
    if valid < text.len() {
        return Err(Refusal {
            reason: Reason::NotUtf8,
            place: valid,
        });
    }
    if let Some(bad) = first_bad(text, words) {
        return Err(Refusal {
            reason: Reason::BadSpan,
            place: bad,
        });
    }
    Ok(o)
}

// A gap stands before the span and is kept.
pub(crate) fn kept_gap(m: Marks, s: Span) -> bool
    ensures { KeptIs m s result }
{
    if s.start == m.prev_end() {
        return false;
    }
    if m.omit_pro_ws {
        return false;
    }
    match s.tag {
        1..=3 => false,
        _ => true,
    }
}

pub(crate) fn is_filling(g: Stage) -> bool
    ensures { result ≡ is_filling (stage_means g) }
{
    matches!(g, Stage::Filling)
}

fn is_waiting(g: Stage) -> bool
    ensures { result ≡ is_waiting (stage_means g) }
{
    matches!(g, Stage::Waiting)
}

fn is_raw(o: Opened) -> bool
    ensures { RawIs o result }
{
    matches!(o, Opened::Raw)
}

// A helper block with no plain else so far.
fn takes_else(o: Opened, inverted: bool) -> bool
    ensures { TakesIs o inverted result }
{
    matches!(o, Opened::Helper) && !inverted
}

// An end tag needs the innermost block's kind.
// Stays: here and below a tag is a number, as document 01's match over it has ranges: an enum would name 20 tags where these
// name a few ranges.
fn is_of_kind(tag: u32, o: Opened) -> bool
    ensures { OfKindIs tag o result }
{
    match o {
        Opened::Root => false,
        Opened::Helper => tag == 15,
        Opened::Raw => tag == 16,
        Opened::Decorator => tag == 17,
        Opened::Partial => tag == 18,
    }
}

// A raw block that waits takes the kept gap as its body, and one that has its body takes no gap.
fn may_end(g: Stage, raw: bool, gap: bool) -> bool
    ensures { result ≡ may_end (stage_means g) raw gap }
{
    match g {
        Stage::Waiting => raw && gap,
        Stage::Filling => true,
        Stage::Full => !gap,
    }
}

// The span has its place in the nesting.
pub(crate) fn nests(g: Stage, o: Opened, inverted: bool, tag: u32, gap: bool) -> bool
    ensures { NestsIs g o inverted tag gap result }
{
    let filling = is_filling(g);
    let waiting = is_waiting(g);
    let raw = is_raw(o);
    match tag {
        1 => waiting && !raw,
        2 => filling,
        3 => waiting && raw,
        5..=8 => filling,
        9..=10 => filling && takes_else(o, inverted),
        11..=14 => filling,
        15..=18 => is_of_kind(tag, o) && may_end(g, raw, gap),
        19..=20 => filling,
        _ => filling || !gap,
    }
}

// 13 of an escape, the least start allowed being `least`.
fn bad_escape(text: &[u8], least: usize, x: Span) -> bool
    ensures { result ≡ bad_escape text.now least x }
{
    if x.start == x.end {
        return true;
    }
    if byte_at(text, x.start) != b'\\' {
        return true;
    }
    x.start < least
}

// 13: one of the escapes listed from number `from` on, up to one ending past the limit, is bad.
pub(crate) fn bad_escapes(input: &Input, start: usize, limit: usize, from: usize) -> bool
    ensures { result ≡ bad_escapes input.now.text.now start (escapes_to limit (escapes_from input.now.words.now from)) }
{
    let mut least = start;
    let mut k = from;
    // Stays: escapes are listed one after the other, so that the next one is at the next number.
    while let Some(x) = escape_at(input.words, k)
        && x.end <= limit
    {
        if bad_escape(input.text, least, x) {
            return true;
        }
        least = x.start + 1;
        k += 1;
    }
    false
}

// At the walked span, or at the count where the list ends too early.
pub(crate) fn fault_place(count: usize, s: Span, f: Fault) -> usize
    ensures { result ≡ fault_place count s (fault_means f) }
{
    match f {
        Fault::Ended => count,
        Fault::NotAllowed => s.number,
        Fault::InvalidLiteral => s.number,
        Fault::OverLimit => s.number,
    }
}

// 12: one more open block or else-if is too many.
pub(crate) fn too_many_open(tag: u32, count: usize) -> bool
    ensures { TooManyIs tag count result }
{
    match tag {
        5..=8 => Frame::LIMIT <= count,
        10 => Frame::LIMIT <= count,
        _ => false,
    }
}

// Equal names, two without a name included.
// Stays: three cases. `==` over the two texts as Options was tried, and its proof did not close: std compares them byte by byte.
fn same_name(text: &[u8], a: Option<Name>, b: Option<Name>) -> bool
    ensures { result ≡ same_name (as_name_means text.now a) (as_name_means text.now b) }
{
    match (a, b) {
        (Some(x), Some(y)) => same_bytes(x.text(text), y.text(text)),
        (None, None) => true,
        _ => false,
    }
}

// There is a name, and it is empty.
fn is_empty_name(text: &[u8], a: Option<Name>) -> bool
    ensures { result ≡ is_empty_name (as_name_means text.now a) }
{
    a.is_some_and(|x| x.text(text).is_empty())
}

// 10: the end of a helper or raw block has another name.
// Stays: the text, the tag and both names, here, below and in `refusal_of`, which asks the two in turn: a struct for three functions
// would be taken apart in each.
pub(crate) fn helper_name_differs(
    text: &[u8],
    tag: u32,
    opened: Option<Name>,
    end: Option<Name>,
) -> bool
    ensures { HelperDiffersIs text.now tag opened end result }
{
    match tag {
        15..=16 => !same_name(text, opened, end),
        _ => false,
    }
}

// 11: the end of a decorator or partial block has another name, and not an empty one.
// Stays: beside `helper_name_differs`, which lets no empty name pass.
pub(crate) fn decorator_name_differs(
    text: &[u8],
    tag: u32,
    opened: Option<Name>,
    end: Option<Name>,
) -> bool
    ensures { DecoratorDiffersIs text.now tag opened end result }
{
    let same = same_name(text, opened, end);
    let empty = is_empty_name(text, end);
    match tag {
        17..=18 => !same && !empty,
        _ => false,
    }
}
