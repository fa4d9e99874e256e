// What is open, and the marks that the walk keeps.
ghost use Rattle.std.specs.Prelude.{◌≡◌};
ghost use Rattle.template.specs.Turn.{begun};
ghost use Rattle.template.specs.Visit.{prev_of};

// The kinds of open bodies: the root's, and those of the four block starts.
#[derive(Clone, Copy)]
pub enum Opened {
    Root,
    Helper,
    Raw,
    Decorator,
    Partial,
}

// An open body: its block's number; the newest else-if node (0: none); the body's first and last
// element; whether there is an else-if; whether the body is the plain else. While the else-ifs are
// turned round, `first` is what has been turned so far.
#[derive(Clone, Copy)]
pub struct Frame {
    pub opened: Opened,
    pub block: usize,
    pub head: usize,
    pub first: usize,
    pub last: usize,
    pub chain: bool,
    pub inverted: bool,
}

impl Frame {
    // Open blocks plus their else-ifs.
    pub const LIMIT: usize = 64;

    // The root's body, with nothing in it.
    pub const EMPTY: Frame = Frame {
        opened: Opened::Root,
        block: 0,
        head: 0,
        first: 0,
        last: 0,
        chain: false,
        inverted: false,
    };

    // The body of a block that begins, with nothing in it.
    pub(crate) fn new(opened: Opened, block: usize) -> Frame
        ensures { result ≡ begun opened block }
    {
        Frame {
            opened,
            block,
            ..Frame::EMPTY
        }
    }
}

// The innermost body is waited for, or takes elements, or is a raw body that takes nothing more.
#[derive(Clone, Copy)]
pub enum Stage {
    Waiting,
    Filling,
    Full,
}

// The end of the previous span, if there was one; the right-tilde mark; the line mark.
#[derive(Clone, Copy)]
pub struct Marks {
    pub stage: Stage,
    pub end_pos: Option<usize>,
    pub omit_pro_ws: bool,
    pub trim_line_required: bool,
}

impl Marks {
    pub const FIRST: Marks = Marks {
        stage: Stage::Waiting,
        end_pos: None,
        omit_pro_ws: false,
        trim_line_required: false,
    };

    // The previous end, at first 0.
    pub(crate) fn prev_end(self) -> usize
        ensures { result ≡ prev_of self }
    {
        self.end_pos.unwrap_or(0)
    }
}
