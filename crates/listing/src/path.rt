// Paths and their segments.
ghost use Rattle.std.specs.Prelude.{[]};
ghost use Rattle.json_path.specs.Answers.{segment_means, segments_mean, path_means};
ghost use Rattle.listing.specs.Form.{write_form, write_forms};
ghost use Rattle.listing.specs.Listing.{segment_form, segment_forms, path_form};
ghost use Rattle.listing.specs.Wrote.{Wrote};

use crate::writer::Writer;
use json_path::path::{Local, Path, PathSeg, Relative, next_segment};

impl<'a> Writer<'a> {
    fn write_segment(&mut self, text: &[u8], segment: PathSeg)
        ensures { Wrote (write_form (segment_form (segment_means text.now segment))) self.old self.new }
    {
        match segment {
            PathSeg::Root => self.put_bytes(b"[root]\n"),
            PathSeg::Here => self.put_bytes(b"[here]\n"),
            PathSeg::Up => self.put_bytes(b"[up]\n"),
            PathSeg::Named(name) => self.write_line(b"[seg ", text, name, b"]\n"),
        }
    }

    // The segments of a relative path, one a line.
    fn write_segments(&mut self, text: &[u8], words: &[u32], path: Relative)
        ensures { Wrote (write_forms (segment_forms (segments_mean text.now words.now path))) self.old self.new }
    {
        let mut rest = path;
        while let Some((segment, after)) = next_segment(text, words, rest) {
            self.write_segment(text, segment);
            rest = after;
        }
    }

    // The raw text and the segments.
    fn write_relative(&mut self, text: &[u8], words: &[u32], path: Relative)
        ensures { Wrote (write_form (path_form (path_means text.now words.now (Path.Relative path)))) self.old self.new }
    {
        self.put_bytes(b"[path ");
        self.write_part(text, path.raw);
        self.put_bytes(b"\n");
        self.write_segments(text, words, path);
        self.put_bytes(b"]\n");
    }

    // The level, the name and the raw text.
    fn write_local(&mut self, text: &[u8], path: Local)
        ensures { Wrote (write_form (path_form (path_means text.now [] (Path.Local path)))) self.old self.new }
    {
        self.put_bytes(b"[local ");
        self.write_decimal(path.level);
        self.put_bytes(b" ");
        self.write_part(text, path.name);
        self.put_bytes(b" ");
        self.write_part(text, path.raw);
        self.put_bytes(b"]\n");
    }

    pub fn write_path(&mut self, text: &[u8], words: &[u32], path: Path)
        ensures { Wrote (write_form (path_form (path_means text.now words.now path))) self.old self.new }
    {
        match path {
            Path::Relative(relative) => self.write_relative(text, words, relative),
            Path::Local(local) => self.write_local(text, local),
        }
    }
}
