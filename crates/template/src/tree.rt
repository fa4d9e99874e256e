// The listing of the tree that the store holds.
ghost use Rattle.std.specs.Prelude.{◌≡◌, ◌+◌, ◌-◌, ◌≤◌, ◌<◌, length, slice_set};
ghost use Rattle.template.specs.Opening.{top_of};
ghost use Rattle.template.specs.Store.{Stored};
ghost use Rattle.template.specs.Finish.{TreeIs};

use crate::element::Element;
use crate::input::Input;
use crate::list::{Waiting, has_else, write_element, write_end};
use listing::writer::Writer;

// The blocks that wait, the innermost on top.
#[derive(Drop)]
struct Waits<'a> {
    blocks: &'a mut [Waiting],
    count: usize,
    ghost inside: { count ≤ length blocks.now },
}

impl<'a> Waits<'a> {
    fn push(&mut self, w: Waiting)
        requires { self.old.count < length self.old.blocks.now }
        ensures blocks { self.new.blocks.now ≡ slice_set self.old.blocks.now self.old.count w }
        ensures count { self.new.count ≡ self.old.count + 1 }
    {
        self.blocks[self.count] = w;
        self.count += 1;
    }

    fn pop(&mut self) -> Option<Waiting>
        ensures top { result ≡ top_of self.old.blocks.now self.old.count }
        ensures blocks { self.new.blocks.now ≡ self.old.blocks.now }
        ensures count { self.new.count ≡ self.old.count - 1 }
    {
        if self.count == 0 {
            return None;
        }
        self.count -= 1;
        Some(self.blocks[self.count])
    }
}

// From element to element, and back to the block that waits where a body ends. At most as many blocks wait as
// there are elements. What the output has no room for is only counted.
pub(crate) fn write_tree<const N: usize>(
    out: &mut [u8],
    input: &Input,
    elements: &[Element; N],
    first: usize,
) -> usize
    requires size { N ≤ 8193 }
    requires stored { Stored input.now.text.now input.now.words.now elements.now first }
    ensures { TreeIs input.now.text.now input.now.words.now elements.now first out.old out.new result }
{
    let mut blocks = [Waiting::EMPTY; N];
    let mut waits = Waits {
        blocks: &mut blocks,
        count: 0,
    };
    let mut w = Writer { out, at: 0 };
    w.put_bytes(b"[template\n");
    let mut link = first;
    // Stays: it follows the elements' links, and counts no index.
    loop {
        if link > 0 {
            let e = elements[link];
            write_element(&mut w, input, e);
            if e.has_body() {
                waits.push(Waiting::new(link, false));
                link = e.template;
            } else {
                link = e.next;
            }
        } else if let Some(x) = waits.pop() {
            let e = elements[x.block];
            let more = has_else(e, x);
            write_end(&mut w, more);
            if more {
                waits.push(Waiting::new(x.block, true));
                link = e.inverse;
            } else {
                link = e.next;
            }
        } else {
            w.put_bytes(b"]\n");
            return w.at;
        }
    }
}
