// `compile2`: a text, its span words and options to a listing, or a number and a place.
ghost use Rattle.std.specs.Prelude.{◌*◌, ◌≤◌, ◌<◌, length};
ghost use Rattle.json_path.specs.Span.{span_count};
ghost use Rattle.template.specs.Compile.{answer};
ghost use Rattle.template.specs.Answers.{AnswerIs};
ghost use Rattle.template.specs.Element.{Good};
ghost use Rattle.template.specs.Finish.{walk_answer};

use crate::frame::Marks;
use crate::input::Input;
use crate::lines::find_lines;
use crate::reason::checks;
use crate::refusal::{Reason, Refusal};
use crate::visit::Options;
use crate::walk::walk;
use json_path::span::span_count;

// Public here, so that other crates can name the sizes of the buffers.
pub use crate::element::Element;

impl Element {
    // How many bytes a buffer has that elements are listed into. A longer listing costs a second walk.
    pub const LARGE_ROOM: usize = 131072;

    pub const FEW_ROOM: usize = 65536;

    pub const SMALL_ROOM: usize = 16384;
}

impl Marks {
    // How many cells a table of lines has: one for each offset, that of the end among them.
    pub const LINES: usize = Marks::TEXT + 1;

    pub const SHORT_LINES: usize = Marks::SHORT + 1;
}

// The tree is listed into a buffer, since the output stays as it was if the listing is too long for it. A
// listing that is longer than the buffer and fits the output is made again, there. The sizes are those of the
// tables of lines, of the store and of the buffer: to fill long arrays would take a tenth of the time of a
// short text with few spans.
// Stays: the bounds of the sizes, here, in `walk` and in `write_tree`, are clauses, since no type says them of a const parameter.
fn compile_in<const LINES: usize, const STORE: usize, const ROOM: usize>(
    text: &[u8],
    words: &[u32],
    options: Options,
    out: &mut [u8],
) -> Result<usize, Refusal>
    requires good { Good text.now words.now }
    requires short { length text.now < LINES }
    requires few { 2 * span_count words.now < STORE }
    requires size { (1 < STORE) × (STORE ≤ 8193) }
    requires lent { (LINES ≤ 16385) × (ROOM ≤ 131072) }
    ensures { AnswerIs (walk_answer text.now words.now options (length out.old)) out.old out.new result }
{
    // Stays: arrays, since there is no heap: their sizes are the const parameters.
    let mut starts = [false; LINES];
    let mut ends = [false; LINES];
    find_lines(text, &mut starts, &mut ends);
    let input = Input {
        text,
        words,
        options,
        starts: &starts,
        ends: &ends,
    };
    let mut buffer = [0u8; ROOM];
    let n = walk::<STORE>(&input, &mut buffer)?;
    if out.len() < n {
        return Err(Refusal {
            reason: Reason::ListingTooLong,
            place: n,
        });
    }
    if ROOM < n {
        return walk::<STORE>(&input, out);
    }
    out[..n].copy_from_slice(&buffer[..n]);
    Ok(n)
}

// Lists the tree of a text into `out`, or says why not. A call that refuses leaves `out` as it was, one
// that lists changes only what its listing fills.
// Stays: the options come as the number that document 01 gives them, and the C interface.
pub fn compile2(text: &[u8], spans: &[u32], options: u32, out: &mut [u8]) -> Result<usize, Refusal>
    ensures { AnswerIs (answer text.now spans.now options (length out.old)) out.old out.new result }
{
    let o = checks(text, spans, options)?;
    if Element::SMALL <= 2 * span_count(spans) {
        compile_in::<{ Marks::LINES }, { Element::LIMIT }, { Element::LARGE_ROOM }>(
            text, spans, o, out,
        )
    } else if Marks::SHORT < text.len() {
        compile_in::<{ Marks::LINES }, { Element::SMALL }, { Element::FEW_ROOM }>(
            text, spans, o, out,
        )
    } else {
        compile_in::<{ Marks::SHORT_LINES }, { Element::SMALL }, { Element::SMALL_ROOM }>(
            text, spans, o, out,
        )
    }
}
