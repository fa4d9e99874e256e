// What parameters, expressions and their parts are made of: offsets into the text, and links.
ghost use Rattle.std.specs.Prelude.{◌≡◌};
ghost use Rattle.expression.specs.Answers.{literal_fault, NamesIs};

use json_path::path::{Name, Path};
use literal::check::LiteralError;

// A literal's text: the kept part of the text, or, if `quoted`, what that inner text of single quotes
// stands for.
// Stays: `quoted` is a flag, since the part of the text is kept either way.
#[derive(Clone, Copy)]
pub struct Literal {
    pub kept: Name,
    pub quoted: bool,
}

// A link: the expression that is read from span number `from` on, up to the limit, with so many more
// subexpressions allowed inside one another.
#[derive(Clone, Copy)]
pub struct Subexpression {
    pub from: usize,
    pub limit: usize,
    pub depth: usize,
}

impl Subexpression {
    // How deep subexpressions may stand inside one another.
    pub const LIMIT: usize = 32;
}

#[derive(Clone, Copy)]
pub enum Parameter {
    Name(Name),
    Path(Path),
    Literal(Literal),
    Subexpression(Subexpression),
}

#[derive(Clone, Copy)]
pub enum BlockParam {
    Single(Name),
    Pair(Name, Name),
}

// A key and its value.
#[derive(Clone, Copy)]
pub struct Hash {
    pub key: Name,
    pub value: Parameter,
}

// What the spans behind an expression's name give, one by one: tags 28, 32, 33, 35, any other.
// Stays: `Skipped`, since a step is an `Option` already, and one inside it would be no plainer.
#[derive(Clone, Copy)]
pub enum Part {
    Param(Parameter),
    Hash(Hash),
    BlockParam(BlockParam),
    RightTilde,
    Skipped,
}

// A link to the parts of an expression: those read from span number `from` on, up to the limit.
// Stays: a type beside `Subexpression`, so that parts are not entered as if they were an expression.
#[derive(Clone, Copy)]
pub struct Parts {
    pub from: usize,
    pub limit: usize,
    pub depth: usize,
}

// Why an expression is turned away: 8, 8, 9 and 12.
// Stays: an enum of its own, since it is what a `Result` holds beside a value, and `?` makes it of a `LiteralError`.
#[derive(Clone, Copy, Debug, PartialEq, Eq)]
pub enum Fault {
    Ended,
    NotAllowed,
    InvalidLiteral,
    OverLimit,
}

impl From<LiteralError> for Fault {
    ghost from_gives = { λ e f. f ≡ literal_fault e };

    fn from(e: LiteralError) -> Fault {
        match e {
            LiteralError::Invalid => Fault::InvalidLiteral,
            LiteralError::OverLimit => Fault::OverLimit,
        }
    }
}

// An expression: left tilde, name, its parts behind the name; of these the last block parameter and
// whether the right tilde is set; and the number from which the spans after it are.
// Stays: `omit_pre_ws` and `omit_pro_ws` are flags, as in the Rust crate, and no value goes with them.
#[derive(Clone, Copy)]
pub struct ExpressionSpec {
    pub omit_pre_ws: bool,
    pub name: Parameter,
    pub parts: Parts,
    pub block_param: Option<BlockParam>,
    pub omit_pro_ws: bool,
    pub next: usize,
}

impl Parameter {
    // A path's name is its raw text; a literal and a subexpression have none.
    #[tactic(auto, unfolding(crate::specs::Answers::param_means))]
    pub fn as_name(self) -> Option<Name>
        ensures { NamesIs self result }
    {
        match self {
            Parameter::Name(n) => Some(n),
            Parameter::Path(Path::Relative(q)) => Some(q.raw),
            Parameter::Path(Path::Local(l)) => Some(l.raw),
            _ => None,
        }
    }
}
