// Parameters, keys and subexpressions: the children that an expression gives, read again from its
// links.
ghost use Rattle.std.specs.Prelude.{◌++◌, false};
ghost use Rattle.support.specs.Bytes.{ascii};
ghost use Rattle.json_path.specs.Answers.{name_means};
ghost use Rattle.expression.specs.Expression.{name, literal, no_params, no_keys, key};
ghost use Rattle.expression.specs.Read.{read_or, Readable};
ghost use Rattle.expression.specs.Answers.{literal_means, param_means, parts_read, params_read, keys_read, call_means};
ghost use Rattle.expression.specs.declared.parameter.Parameter.TheVariants as Parameter;
ghost use Rattle.listing.specs.Quoted.{quoted};
ghost use Rattle.listing.specs.Form.{nil, write_form, write_forms};
ghost use Rattle.listing.specs.Held.{EntryRead, All, held_keys};
ghost use Rattle.listing.specs.Listing.{param_form, call_forms, param_forms, key_forms};
ghost use Rattle.listing.specs.Wrote.{Wrote};

use crate::keys::hold_keys;
use crate::writer::Writer;
use expression::again::{enter, next_key, next_param};
use expression::parameter::{Hash, Literal, Parameter, Parts, Subexpression};
use expression::parse::parse_hash;
use json_path::path::Name;

// Stays: `text` and `words` apart, here and in the other files. The readers take them apart, for which path.rt of json_path has
// the figures, so that one struct would be taken apart at each call of one.
impl<'a> Writer<'a> {
    pub fn write_name(&mut self, text: &[u8], n: Name)
        ensures { Wrote (write_form (param_form (name (name_means text.now n)))) self.old self.new }
    {
        self.write_line(b"[name ", text, n, b"]\n");
    }

    // The kept text, quoted.
    fn write_kept(&mut self, text: &[u8], l: Literal)
        ensures { Wrote (quoted (literal_means text.now l)) self.old self.new }
    {
        let rewritten = l.quoted;
        if rewritten {
            return self.write_requoted(l.kept.text(text));
        }
        self.write_part(text, l.kept);
    }

    pub fn write_literal(&mut self, text: &[u8], l: Literal)
        ensures { Wrote (write_form (param_form (literal (literal_means text.now l)))) self.old self.new }
    {
        self.put_bytes(b"[lit ");
        self.write_kept(text, l);
        self.put_bytes(b"]\n");
    }

    // The first line of a key.
    fn write_key(&mut self, text: &[u8], k: Name)
        ensures { Wrote (ascii "[key " ++ (quoted (name_means text.now k) ++ ascii "\n")) self.old self.new }
    {
        self.write_line(b"[key ", text, k, b"\n");
    }

    #[cycle(writers)]
    pub fn write_param(&mut self, text: &[u8], words: &[u32], v: Parameter)
        ensures { Wrote (write_form (param_form (param_means text.now words.now v))) self.old self.new }
    {
        match v {
            Parameter::Name(n) => self.write_name(text, n),
            Parameter::Path(p) => self.write_path(text, words, p),
            Parameter::Literal(l) => self.write_literal(text, l),
            Parameter::Subexpression(s) => self.write_subexpression(text, words, s),
        }
    }

    // A link that cannot be read denotes an empty call.
    #[cycle(writers)]
    fn write_subexpression(&mut self, text: &[u8], words: &[u32], s: Subexpression)
        ensures { Wrote (write_form (param_form (param_means text.now words.now (Parameter.Subexpression s)))) self.old self.new }
    {
        let Ok(x) = enter(text, words, s) else {
            return self.put_bytes(b"[sub\n[name \"\"]\n]\n");
        };
        self.put_bytes(b"[sub\n");
        self.write_call(text, words, x.name, x.parts);
        self.put_bytes(b"]\n");
    }

    // Name, parameters, keys in byte order. A link that a reader answered can be read again: this and the
    // writers of all parameters and keys ask for that, so that no fault occurs in them.
    // Stays: `Readable`, here and below, is asked of text, words and parts. A struct of the three would be taken apart at each
    // call of a reader, and be made again for the parts that are left.
    #[cycle(writers)]
    pub(crate) fn write_call(&mut self, text: &[u8], words: &[u32], name: Parameter, parts: Parts)
        requires { Readable (parts_read false text.now words.now parts) }
        ensures { Wrote (write_forms (call_forms (call_means text.now words.now name parts) nil)) self.old self.new }
    {
        self.write_param(text, words, name);
        self.write_params(text, words, parts);
        self.write_keys(text, words, parts);
    }

    #[cycle(writers)]
    fn write_params(&mut self, text: &[u8], words: &[u32], parts: Parts)
        requires { Readable (parts_read false text.now words.now parts) }
        ensures { Wrote (write_forms (param_forms (read_or no_params (params_read text.now words.now parts)) nil)) self.old self.new }
    {
        let mut rest = parts;
        while let Ok(Some((v, after))) = next_param(text, words, rest) {
            self.write_param(text, words, v);
            rest = after;
        }
    }

    // Most calls have few keys.
    // Stays: an array, since there is no heap, with no count beside it: `hold_keys` answers how many cells it fills.
    #[cycle(writers)]
    fn write_keys(&mut self, text: &[u8], words: &[u32], parts: Parts)
        requires { Readable (parts_read false text.now words.now parts) }
        ensures { Wrote (write_forms (key_forms (read_or no_keys (keys_read text.now words.now parts)) nil)) self.old self.new }
    {
        let mut held = [0usize; 16];
        let Some(n) = hold_keys(text, words, parts, &mut held) else {
            return self.write_many_keys(text, words, parts);
        };
        self.write_held(text, words, parts.depth, &held[0..n]);
    }

    // A key takes three spans: a list of so many spans as are allowed has no more keys than these cells.
    // Stays: functions of a cycle may not differ in a const parameter; and the larger array has a frame of its own, so that calls
    // inside one another do not each hold it.
    #[cycle(writers)]
    fn write_many_keys(&mut self, text: &[u8], words: &[u32], parts: Parts)
        requires { Readable (parts_read false text.now words.now parts) }
        ensures { Wrote (write_forms (key_forms (read_or no_keys (keys_read text.now words.now parts)) nil)) self.old self.new }
    {
        let mut held = [0usize; 1366];
        let Some(n) = hold_keys(text, words, parts, &mut held) else {
            return self.write_least_keys(text, words, parts);
        };
        self.write_held(text, words, parts.depth, &held[0..n]);
    }

    // Keys that are held.
    #[cycle(writers)]
    fn write_held(&mut self, text: &[u8], words: &[u32], depth: usize, held: &[usize])
        requires { All (EntryRead text.now words.now depth) held.now }
        ensures { Wrote (write_forms (key_forms (held_keys text.now words.now depth held.now) nil)) self.old self.new }
    {
        for e in held {
            let Ok((hash, _)) = parse_hash(text, words, *e, depth, false) else {
                return;
            };
            self.write_hash(text, words, hash);
        }
    }

    // However many keys: the parts are read again for each, the least that is left.
    #[cycle(writers)]
    fn write_least_keys(&mut self, text: &[u8], words: &[u32], parts: Parts)
        requires { Readable (parts_read false text.now words.now parts) }
        ensures { Wrote (write_forms (key_forms (read_or no_keys (keys_read text.now words.now parts)) nil)) self.old self.new }
    {
        let mut bound = None;
        while let Ok(Some(h)) = next_key(text, words, parts, bound) {
            self.write_hash(text, words, h);
            bound = Some(h.key);
        }
    }

    // A key with its value.
    #[cycle(writers)]
    pub fn write_hash(&mut self, text: &[u8], words: &[u32], h: Hash)
        ensures { Wrote (write_forms (key_forms (key (name_means text.now h.key) (param_means text.now words.now h.value) no_keys) nil)) self.old self.new }
    {
        self.write_key(text, h.key);
        self.write_param(text, words, h.value);
        self.put_bytes(b"]\n");
    }
}
