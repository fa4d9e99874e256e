// What the store holds: elements, as in the crate, with links as numbers. Link 0 is none.
ghost use Rattle.std.specs.Prelude.{◌≡◌};
ghost use Rattle.template.specs.Element.{new_element, named_element, role_of, has_body};
ghost use Rattle.template.specs.Links.{inverse_node, followed_by, set_template, set_inverse, trim_end_of, more_of, BlockNameIs};

use expression::parameter::Parameter;
use json_path::path::Name;
use support::position::Place;

// How the front of a text is trimmed: not at all; blanks, then the first newline; White_Space.
#[derive(Clone, Copy)]
pub enum Front {
    Kept,
    Line,
    White,
}

// How its end is trimmed: not at all; blanks; White_Space.
#[derive(Clone, Copy)]
pub enum Back {
    Kept,
    Blanks,
    White,
}

// The text from `start` to `end` without the first bytes of its escapes, which are listed from span
// number `escapes` on. It is made, and trimmed, when it is listed.
#[derive(Clone, Copy)]
pub struct RawString {
    pub start: usize,
    pub end: usize,
    pub escapes: usize,
    pub front: Front,
    pub back: Back,
}

// A comment's own text, with its marks; `compact` says which marks they are.
// Stays: a flag, since the text is kept either way.
#[derive(Clone, Copy)]
pub struct Comment {
    pub start: usize,
    pub end: usize,
    pub compact: bool,
}

// An expression by its link: it is read from span number `from` on, up to the limit.
#[derive(Clone, Copy)]
pub struct HelperTemplate {
    pub from: usize,
    pub limit: usize,
    pub indent_before_write: bool,
}

// The same; and the end of the blanks that it keeps as indent, if it keeps them. It has 32 bits, which hold each
// offset in a text: with 64 the struct would be a quarter larger, and the store would have 64 KiB more.
#[derive(Clone, Copy)]
pub struct DecoratorTemplate {
    pub from: usize,
    pub limit: usize,
    pub indent_before_write: bool,
    pub indent: Option<u32>,
}

// Stays: `Empty`, which document 01's arrays are filled with.
#[derive(Clone, Copy)]
pub enum TemplateElement {
    Empty,
    RawString(RawString),
    Comment(Comment),
    Expression(HelperTemplate),
    HtmlExpression(HelperTemplate),
    HelperBlock(HelperTemplate),
    DecoratorExpression(DecoratorTemplate),
    PartialExpression(DecoratorTemplate),
    DecoratorBlock(DecoratorTemplate),
    PartialBlock(DecoratorTemplate),
}

// An element with its name, which only a tag has, its place (line 0: none) and its links: to the element
// after it in its body, to the first of its own body, and to the first of its else, if it has one
// (`inverted`). While its block is open, `inverse` of an else-if node is the node before it.
// Stays: links are numbers, 0 for none, since there is no heap and the store is an array whose cell 0 is empty. `inverted` is
// beside `inverse`, since an else may be empty, and `inverse` is a link before there is an else.
#[derive(Clone, Copy)]
pub struct Element {
    pub element: TemplateElement,
    pub name: Parameter,
    pub place: Place,
    pub next: usize,
    pub template: usize,
    pub inverse: usize,
    pub inverted: bool,
    pub chain: bool,
}

impl Element {
    // How many elements the store has.
    pub const LIMIT: usize = 8193;

    // How many the smaller store has, for at most 320 spans.
    pub const SMALL: usize = 641;

    // Of texts and comments, which have none.
    pub const NO_NAME: Parameter = Parameter::Name(Name { start: 0, end: 0 });

    pub const EMPTY: Element = Element {
        element: TemplateElement::Empty,
        name: Element::NO_NAME,
        place: Place { line: 0, column: 0 },
        next: 0,
        template: 0,
        inverse: 0,
        inverted: false,
        chain: false,
    };

    // A text or a comment.
    pub(crate) fn new(element: TemplateElement, place: Place) -> Element
        ensures { result ≡ new_element element place }
    {
        Element::named(element, Element::NO_NAME, place)
    }

    // What a tag makes.
    pub(crate) fn named(element: TemplateElement, name: Parameter, place: Place) -> Element
        ensures { result ≡ named_element element name place }
    {
        Element {
            element,
            name,
            place,
            ..Element::EMPTY
        }
    }

    // An else-if node: it has no place, and links to the node before it.
    pub(crate) fn insert_inverse_node(self, before: usize) -> Element
        ensures { result ≡ inverse_node self before }
    {
        Element {
            inverse: before,
            chain: true,
            ..Element::named(self.element, self.name, Element::EMPTY.place)
        }
    }

    // With `at` after it.
    pub(crate) fn followed_by(self, at: usize) -> Element
        ensures { result ≡ followed_by self at }
    {
        Element { next: at, ..self }
    }

    // With the body that begins at `at`.
    pub(crate) fn set_template(self, at: usize) -> Element
        ensures { result ≡ set_template self at }
    {
        Element {
            template: at,
            ..self
        }
    }

    // With the else that begins at `at`, if there is one.
    pub(crate) fn set_inverse(self, at: usize, inverted: bool, chain: bool) -> Element
        ensures { result ≡ set_inverse self at inverted chain }
    {
        Element {
            inverse: at,
            inverted,
            chain,
            ..self
        }
    }

    // A text's end trimmed; what is trimmed by White_Space has no blanks left.
    pub(crate) fn trim_end(self, back: Back) -> Element
        ensures { result ≡ trim_end_of self back }
    {
        if let TemplateElement::RawString(r) = self.element {
            let back = more_of(r.back, back);
            return Element {
                element: TemplateElement::RawString(RawString { back, ..r }),
                ..self
            };
        }
        self
    }

    pub(crate) fn has_body(self) -> bool
        ensures { result ≡ has_body (role_of self.element) }
    {
        matches!(
            self.element,
            TemplateElement::HelperBlock(_)
                | TemplateElement::DecoratorBlock(_)
                | TemplateElement::PartialBlock(_)
        )
    }

    // The name of a block's opening tag.
    pub(crate) fn name(self) -> Option<Name>
        ensures { BlockNameIs self result }
    {
        if self.has_body() {
            return self.name.as_name();
        }
        None
    }
}

// One trim of an end after another.
fn more_of(first: Back, then: Back) -> Back
    ensures { result ≡ more_of first then }
{
    match (first, then) {
        (_, Back::Kept) => first,
        (Back::White, Back::Blanks) => first,
        _ => then,
    }
}
