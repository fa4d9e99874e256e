// Empty lines at every offset of a text, found in one pass for those that start there and one for
// those that end there: asked tag by tag, each test would read a run of blanks anew.
ghost use Rattle.std.specs.Prelude.{◌≡◌, ◌<◌, length};
ghost use Rattle.template.specs.Lines.{line_across, StartsAre, EndsAre, LinesAre};

use support::str::{newline_matcher, whitespace_matcher};

// Whether there is an empty line on one side of `c`; `line`: on its other side. The first test is there for
// speed, since most bytes stand above the blanks and the newlines.
fn line_across(c: u8, line: bool) -> bool
    ensures { result ≡ line_across c line }
{
    if b' ' < c {
        false
    } else if whitespace_matcher(c) {
        line
    } else {
        newline_matcher(c)
    }
}

// None starts at the end of the text; before it, by the byte that follows.
fn find_line_starts(text: &[u8], starts: &mut [bool])
    requires { length text.now < length starts.old }
    ensures { StartsAre text.now starts.new }
{
    let mut line = false;
    starts[text.len()] = line;
    for i in (0..text.len()).rev() {
        line = line_across(text[i], line);
        starts[i] = line;
    }
}

// One ends at the start of the text; after it, by the byte before.
// Stays: beside `find_line_starts`, which goes the other way and leaves out the last cell.
fn find_line_ends(text: &[u8], ends: &mut [bool])
    requires { length text.now < length ends.old }
    ensures { EndsAre text.now ends.new }
{
    let mut line = true;
    ends[0] = line;
    for (i, c) in text.iter().enumerate() {
        line = line_across(*c, line);
        ends[i + 1] = line;
    }
}

// Both tables have a cell for each offset, that of the end among them.
pub(crate) fn find_lines(text: &[u8], starts: &mut [bool], ends: &mut [bool])
    requires { (length text.now < length starts.old) × (length text.now < length ends.old) }
    ensures { LinesAre text.now starts.new ends.new }
{
    find_line_starts(text, starts);
    find_line_ends(text, ends);
}
