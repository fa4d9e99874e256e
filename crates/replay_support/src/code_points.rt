// Every scalar value before a letter, after it, and on both sides of it.
use crate::fold::{fold_bytes, fold_place};
use crate::text::Text;
use std::io;
use support::position::{Place, line_col};
use support::utf8::valid_up_to;
use support::white_space::{trim_end, trim_start};

fn before_letter(c: char) -> Text {
    let mut text = Text::new();
    text.push_char(c);
    text.push(b'a');
    text
}

fn after_letter(c: char) -> Text {
    let mut text = Text::new();
    text.push(b'a');
    text.push_char(c);
    text
}

// Stays: here and above one function a side, as `trim_start` and `trim_end` are two.
fn is_trimmed_at_front(c: char) -> bool {
    let text = before_letter(c);
    let s = text.as_slice();
    trim_start(s).len() < s.len()
}

fn is_trimmed_at_back(c: char) -> bool {
    let text = after_letter(c);
    let s = text.as_slice();
    trim_end(s).len() < s.len()
}

// Writes the scalar values that are trimmed on one side, and how many they are.
fn list<F: Fn(char) -> bool>(rt: &impl Print, is_trimmed: F) -> io::Result<()>
    requires { F.IsAlwaysCallable is_trimmed }
{
    let mut run: u64 = 0;
    let mut found: u64 = 0;
    for c in '\0'..=char::MAX {
        run = run.saturating_add(1);
        if is_trimmed(c) {
            found = found.saturating_add(1);
            print!(rt; " {:02x}", c as u32)?;
        }
    }
    println!(rt; "\n{found} of {run} scalar values")
}

// What the strings with a scalar value on both sides gave: how many there are, how many are valid to
// their end, and hashes.
#[derive(Clone, Copy, Default)]
struct Tally {
    strings: u64,
    valid: u64,
    trims: u64,
    places: u64,
}

impl Tally {
    // One more string.
    fn count(self, s: &[u8]) -> Tally {
        let is_valid = valid_up_to(s) == s.len();
        let place = line_col(Place { line: 1, column: 1 }, s);
        Tally {
            strings: self.strings.saturating_add(1),
            valid: self.valid.saturating_add(u64::from(is_valid)),
            trims: fold_bytes(fold_bytes(self.trims, trim_start(s)), trim_end(s)),
            places: fold_place(self.places, place),
        }
    }
}

fn count_code_point(t: Tally, c: char) -> Tally {
    let mut text = before_letter(c);
    text.push_char(c);
    t.count(text.as_slice())
}

fn count_all() -> Tally {
    ('\0'..=char::MAX).fold(Tally::default(), count_code_point)
}

pub fn report(rt: &impl Print) -> io::Result<()> {
    print!(rt; "white space at the front:")?;
    list(rt, is_trimmed_at_front)?;
    print!(rt; "white space at the back:")?;
    list(rt, is_trimmed_at_back)?;
    let t = count_all();
    println!(rt;
        "on both sides of a letter: strings {} valid {} trims {:08x} places {:08x}",
        t.strings, t.valid, t.trims, t.places
    )
}
