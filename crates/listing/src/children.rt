// The children that an element's expression gives, read again from its link.
ghost use Rattle.json_path.specs.Answers.{name_means};
ghost use Rattle.expression.specs.Expression.{single, pair};
ghost use Rattle.expression.specs.Answers.{block_means};
ghost use Rattle.listing.specs.Form.{nil, write_forms};
ghost use Rattle.listing.specs.Listing.{block_param_forms};
ghost use Rattle.listing.specs.Children.{decorator_children, helper_children};
ghost use Rattle.listing.specs.Wrote.{Wrote};

use crate::writer::Writer;
use expression::parameter::{BlockParam, Subexpression};
use expression::parse::parse_expression;
use json_path::path::Name;

impl<'a> Writer<'a> {
    fn write_single(&mut self, text: &[u8], a: Name)
        ensures { Wrote (write_forms (block_param_forms (single (name_means text.now a)) nil)) self.old self.new }
    {
        self.write_line(b"[as ", text, a, b"]\n");
    }

    fn write_pair(&mut self, text: &[u8], a: Name, b: Name)
        ensures { Wrote (write_forms (block_param_forms (pair (name_means text.now a) (name_means text.now b)) nil)) self.old self.new }
    {
        self.write_line(b"[as ", text, a, b" ");
        self.write_line(b"", text, b, b"]\n");
    }

    // `[as ..]` with one name or two, or nothing.
    pub fn write_block_param(&mut self, text: &[u8], block: Option<BlockParam>)
        ensures { Wrote (write_forms (block_param_forms (block_means text.now block) nil)) self.old self.new }
    {
        let Some(names) = block else {
            return;
        };
        match names {
            BlockParam::Single(a) => self.write_single(text, a),
            BlockParam::Pair(a, b) => self.write_pair(text, a, b),
        }
    }

    // Name, parameters and keys in byte order: a decorator or a partial has no block parameters. A link
    // that cannot be read denotes an empty call.
    pub fn write_decorator(&mut self, text: &[u8], words: &[u32], link: Subexpression)
        ensures { Wrote (write_forms (decorator_children text.now words.now link)) self.old self.new }
    {
        let Ok(call) = parse_expression(text, words, link.from, link.limit, link.depth, false)
        else {
            return self.put_bytes(b"[name \"\"]\n");
        };
        self.write_call(text, words, call.name, call.parts);
    }

    // The same, and the block parameters.
    // Stays: what the two share is `write_call`; one function that is told whether block parameters follow would be no plainer.
    pub fn write_helper(&mut self, text: &[u8], words: &[u32], link: Subexpression)
        ensures { Wrote (write_forms (helper_children text.now words.now link)) self.old self.new }
    {
        let Ok(x) = parse_expression(text, words, link.from, link.limit, link.depth, false) else {
            return self.put_bytes(b"[name \"\"]\n");
        };
        self.write_call(text, words, x.name, x.parts);
        self.write_block_param(text, x.block_param);
    }
}
