// The keys of an expression, held in byte order in cells that are lent: one pass over its parts. A key
// is held as the number behind its tag 32, from which it and its value are read again.
ghost use Rattle.std.specs.Prelude.{◌≡◌, ◌∷◌, false, ◌+◌, ◌-◌, ◌≤◌, ◌<◌, length, take, drop};
ghost use Rattle.std.proofs.Math.Seq.{paste};
ghost use Rattle.expression.specs.Read.{Readable};
ghost use Rattle.expression.specs.Answers.{parts_read};
ghost use Rattle.listing.specs.Held.{entry_key, EntryIs, InOrder, put_entry, PlaceIs, CellsHold, PartHeld, HeldIs};

use expression::parameter::{Part, Parts};
use expression::parse::next_part;
use json_path::span::next_span;
use support::bytes::{part, precedes, same_bytes};

// The number behind the first span from `from` on.
fn entry_at(words: &[u32], from: usize) -> usize
    ensures { EntryIs words.now from result }
{
    next_span(words, from).map_or(from, |s| s.number + 1)
}

// The key of an entry.
fn key_at<'a, 'b>(text: &'a [u8], words: &'b [u32], e: usize) -> &'a [u8]
    ensures { result.now ≡ entry_key text.now words.now e }
{
    let Some(s) = next_span(words, e) else {
        return part(text, 0, 0);
    };
    s.text(text)
}

// How many of the entries, which are in byte order, stand before a key.
fn place_of(text: &[u8], words: &[u32], key: &[u8], held: &[usize]) -> usize
    requires { InOrder (entry_key text.now words.now) held.now }
    ensures { PlaceIs (entry_key text.now words.now) key.now held.now result }
{
    held.partition_point(|e| precedes(key_at(text, words, *e), key))
}

// Stores an entry at a place; those from there up to `count` move on by one.
fn insert_at(held: &mut [usize], place: usize, count: usize, e: usize)
    requires { (place ≤ count) × (count < length held.old) }
    ensures { held.new ≡ paste held.old place (e ∷ drop place held.old) (count + 1 - place) }
{
    held.copy_within(place..count, place + 1);
    held[place] = e;
}

// One more entry among `count`: so many cells hold them then, or there are not enough.
// Stays: cells and count, here and in the next two. That they are in order is by the text and the words, so that a struct would
// hold all four, for three functions.
fn hold_key(text: &[u8], words: &[u32], e: usize, held: &mut [usize], count: usize) -> Option<usize>
    requires { (count ≤ length held.old) × InOrder (entry_key text.now words.now) (take count held.old) }
    ensures { CellsHold (put_entry (entry_key text.now words.now) e (take count held.old)) held.new result }
{
    let key = key_at(text, words, e);
    let place = place_of(text, words, key, &held[0..count]);
    if place < count {
        let other = key_at(text, words, held[place]);
        if same_bytes(other, key) {
            held[place] = e;
            return Some(count);
        }
    }
    if held.len() <= count {
        return None;
    }
    insert_at(held, place, count, e);
    Some(count + 1)
}

// The same after a part, the first from `from` on: only a key gives an entry.
fn hold_part(
    text: &[u8],
    words: &[u32],
    from: usize,
    x: Part,
    held: &mut [usize],
    count: usize,
) -> Option<usize>
    requires { (count ≤ length held.old) × InOrder (entry_key text.now words.now) (take count held.old) }
    ensures { PartHeld text.now words.now from x (take count held.old) held.new result }
{
    match x {
        Part::Hash(_) => {
            let e = entry_at(words, from);
            hold_key(text, words, e, held, count)
        }
        _ => Some(count),
    }
}

// The keys of a link's parts, each with its last value.
pub(crate) fn hold_keys(
    text: &[u8],
    words: &[u32],
    parts: Parts,
    held: &mut [usize],
) -> Option<usize>
    requires { Readable (parts_read false text.now words.now parts) }
    ensures { HeldIs text.now words.now parts held.new result }
{
    let mut rest = parts;
    let mut count = 0;
    while let Ok(Some((x, after))) = next_part(text, words, rest, false) {
        count = hold_part(text, words, rest.from, x, held, count)?;
        rest = after;
    }
    Some(count)
}
