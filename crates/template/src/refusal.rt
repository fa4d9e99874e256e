// Why a card is turned away, and where.
ghost use Rattle.std.specs.Prelude.{◌≡◌};
ghost use Rattle.expression.specs.Read.{fault_number};
ghost use Rattle.expression.specs.Answers.{fault_means};
ghost use Rattle.template.specs.Numbers.{reason_number};

use expression::parameter::Fault;

// Document 01's reasons, in the order of their numbers.
#[derive(Clone, Copy, PartialEq, Eq, Debug)]
pub enum Reason {
    Options,
    TextTooLong,
    SpanList,
    NotUtf8,
    BadSpan,
    OutOfOrder,
    BadNesting,
    BadExpression,
    InvalidLiteral,
    HelperName,
    DecoratorName,
    OverLimit,
    BadEscape,
    ListingTooLong,
}

// The number of a reason, from 1 to 14.
impl From<Reason> for u32 {
    ghost from_gives = { λ r n. n ≡ reason_number r };

    fn from(reason: Reason) -> u32 {
        match reason {
            Reason::Options => 1,
            Reason::TextTooLong => 2,
            Reason::SpanList => 3,
            Reason::NotUtf8 => 4,
            Reason::BadSpan => 5,
            Reason::OutOfOrder => 6,
            Reason::BadNesting => 7,
            Reason::BadExpression => 8,
            Reason::InvalidLiteral => 9,
            Reason::HelperName => 10,
            Reason::DecoratorName => 11,
            Reason::OverLimit => 12,
            Reason::BadEscape => 13,
            Reason::ListingTooLong => 14,
        }
    }
}

// The reason that a fault of an expression is.
impl From<Fault> for Reason {
    ghost from_gives = { λ f r. reason_number r ≡ fault_number (fault_means f) };

    fn from(f: Fault) -> Reason {
        match f {
            Fault::Ended => Reason::BadExpression,
            Fault::NotAllowed => Reason::BadExpression,
            Fault::InvalidLiteral => Reason::InvalidLiteral,
            Fault::OverLimit => Reason::OverLimit,
        }
    }
}

// Document 01 says of each reason which place it has.
#[derive(Clone, Copy, PartialEq, Eq, Debug)]
pub struct Refusal {
    pub reason: Reason,
    pub place: usize,
}
